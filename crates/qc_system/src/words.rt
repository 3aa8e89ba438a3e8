//! The words of the command line.

use std::env::{self, FillError};
use std::io;
use std::rt::Env;

/// An environment whose arguments begin behind the program's name, which needn't be text.
#[derive(Drop)]
struct BehindName<'a, R> {
    rt: &'a R,
}

impl<R: Env> Env for BehindName<'_, R> {
    fn arg(&self, i: usize, buf: &mut [u8]) -> Result<usize, FillError> {
        self.rt.arg(i.saturating_add(1), buf)
    }

    fn var(&self, name: &str, buf: &mut [u8]) -> Result<usize, FillError> {
        self.rt.var(name, buf)
    }

    fn var_at(&self, i: usize, buf: &mut [u8]) -> Result<usize, FillError> {
        self.rt.var_at(i, buf)
    }
}

/// The words of the command line, without the program's name.
pub fn words_of<R: Env + AllocGlobal>(rt: &R) -> io::Result<Vec<String>> {
    let words = env::args(&(BehindName { rt }, rt.alloc()))?.collect(rt.alloc())?;
    Ok(words)
}
