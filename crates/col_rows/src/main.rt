//! Runs each case of a table, and tells those that differ from what is wanted.
#![tactic(auto)]

mod case;
mod comparison;
mod escapes;
mod tally;

use std::io;
use std::process::ExitCode;
use tally::Tally;

fn main(rt: HostRuntime) -> ExitCode {
    match check_table(&rt) {
        Ok(tally) if tally.is_clean() => ExitCode::SUCCESS,
        Ok(_) => ExitCode::FAILURE,
        Err(error) => {
            let _ = eprintln!(rt; "col_rows: {error}");
            ExitCode::FAILURE
        }
    }
}

// Runs the cases of standard input, each as its line is read.
fn check_table(rt: &HostRuntime) -> io::Result<Tally> {
    let alloc = rt.alloc();
    let mut tally = Tally::default();
    for line in rt.lines(alloc) {
        if let Some(told) = tally.check_line(alloc, line?.as_str())? {
            println!(rt; "{told}")?;
        }
    }
    println!(rt; "{tally}")?;
    Ok(tally)
}
