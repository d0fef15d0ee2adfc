//! The words of the command line.

use std::alloc::AllocError;
use std::rt::Env;
use std::{env, io};

/// The words after the program's name. Where one isn't UTF-8 there are none, which is refused too.
/// `Err` is want of memory.
pub fn given_words(rt: &(impl Env + AllocGlobal)) -> Result<Vec<String>, AllocError> {
    match env::args(rt) {
        Ok(args) => args.skip(1).collect(rt.alloc()),
        Err(error) if error.kind() == io::ErrorKind::OutOfMemory => Err(AllocError),
        Err(_) => Ok(Vec::new(rt.alloc())),
    }
}
