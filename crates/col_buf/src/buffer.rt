//! Lists that several holders share.
ghost use Rattle.std.specs.Prelude.{◌≡◌, length, IfOk, IfErr};
ghost use Rattle.col_types.specs.Answer.{FailsByMemory};
ghost use Rattle.col_buf.specs.Cut.{IsWithin, cut};

use col_types::Error;
use std::alloc::Global;
use std::marker::Model;
use std::rc::Rc;

/// A list, or a part of one, that several holders may share.
#[derive(Drop)]
pub struct Buffer<T> {
    values: Rc<Vec<T>>,
    start: usize,
    count: usize,
}

impl<T> Model for Buffer<T> {
    ghost use Rattle.std.specs.Prelude.{List};
    ghost use Rattle.col_buf.specs.Cut.{IsWithin, cut};

    ghost Value = { List T };

    ghost view = { λ b. cut b.values.value.items b.start b.count };

    ghost invariant = { λ b. IsWithin b.values.value.items b.start b.count };
}

impl<T> Buffer<T> {
    /// A buffer of the vector's values.
    ///
    /// A refusal hands the vector back.
    pub fn from_vec(alloc: Global, values: Vec<T>) -> Result<Buffer<T>, (Error, Vec<T>)>
        ensures value { IfOk result (λ buffer. buffer ≡ values.items) }
        ensures kept { IfErr result (λ e. (e.0 ≡ Error.Memory) × (e.1 ≡ values)) }
    {
        let count = values.len();
        match Rc::new(alloc, values) {
            Ok(values) => Ok(Buffer {
                values,
                start: 0,
                count,
            }),
            Err(failed) => Err((Error::Memory, failed.value)),
        }
    }

    /// The number of values.
    pub fn len(&self) -> usize
        ensures { result ≡ length self.now }
    {
        self.count
    }

    /// The values.
    pub fn as_slice(&self) -> &[T]
        ensures { result.now ≡ self.now }
    {
        let values: &Vec<T> = &self.values;
        &values.as_slice()[self.start..self.start + self.count]
    }

    /// The `length` values from the place `offset` on, in the same list.
    pub fn sliced(self, offset: usize, length: usize) -> Self
        requires { IsWithin self offset length }
        ensures { result ≡ cut self offset length }
    {
        Buffer {
            values: self.values,
            start: self.start + offset,
            count: length,
        }
    }
}

impl<T: Drop> Buffer<T> {
    /// Another holder of the same values.
    pub fn share(&self) -> Result<Buffer<T>, Error>
        ensures value { IfOk result (λ buffer. buffer ≡ self.now) }
        ensures refused { FailsByMemory result }
    {
        let values = self.values.clone()?;
        Ok(Buffer {
            values,
            start: self.start,
            count: self.count,
        })
    }
}
