//! The words of the command line.

use std::alloc::Global;
use std::env::{Env, FillError};
use std::{env, io};

/// What the program calls itself, whatever it was called by.
const NAME: &[u8] = b"jt_tool";

/// An environment in which the program has its own name: the name and the folder that it was called by may hold any
/// bytes.
#[derive(Drop)]
struct OwnName<'a, R>(&'a R);

impl<'a, R: Env> Env for OwnName<'a, R> {
    fn arg(&self, i: usize, buf: &mut [u8]) -> Result<usize, FillError> {
        if i > 0 {
            return self.0.arg(i, buf);
        }
        if buf.len() < NAME.len() {
            return Err(FillError::TooLong);
        }
        buf[..NAME.len()].copy_from_slice(NAME);
        Ok(NAME.len())
    }

    fn var(&self, name: &str, buf: &mut [u8]) -> Result<usize, FillError> {
        self.0.var(name, buf)
    }

    fn var_at(&self, i: usize, buf: &mut [u8]) -> Result<usize, FillError> {
        self.0.var_at(i, buf)
    }
}

/// The words of the command line, the program's name first. A word that is not UTF-8 is an error of kind `InvalidData`,
/// want of memory one of kind `OutOfMemory`.
pub fn command_words<R: Env>(rt: &R, alloc: Global) -> io::Result<Vec<String>> {
    let mut words = Vec::new(alloc);
    for word in env::args(&(OwnName(rt), alloc))? {
        words.push(word)?;
    }
    Ok(words)
}
