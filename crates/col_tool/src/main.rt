//! Evaluates or sums the trees of a JSON document over its columns, or sums a table that it makes.
#![tactic(auto)]

use col_run::{ReadSource, Status, WriteSink, run, status_text};
use std::io::ErrorKind;
use std::process::ExitCode;
use std::rt::Env;
use std::{env, io};

fn main(rt: HostRuntime) -> ExitCode {
    let status = match words(&rt) {
        Ok(words) => {
            let mut source = ReadSource::new(rt.reader());
            let mut sink = WriteSink::new(io::writer(&rt));
            run(rt.alloc(), words.as_slice(), &mut source, &mut sink)
        }
        Err(status) => status,
    };
    if !matches!(status, Status::Done | Status::Refused) {
        let _ = eprintln!(rt; "col_tool: {}", status_text(status));
    }
    ExitCode::from(status.number())
}

// The words after the program's name, or the status that says why they cannot be had.
fn words(rt: &(impl Env + AllocGlobal)) -> Result<Vec<String>, Status> {
    match env::args(rt) {
        Ok(words) => match words.skip(1).collect(rt.alloc()) {
            Ok(words) => Ok(words),
            Err(_) => Err(Status::Memory),
        },
        Err(e) if e.kind() == ErrorKind::OutOfMemory => Err(Status::Memory),
        Err(_) => Err(Status::Words),
    }
}
