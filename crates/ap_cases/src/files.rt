//! Files that are read.

use crate::spelling::Spelling;
use std::fs;
use std::fs::Files;

/// What divides the parts of a file.
pub const DIVIDER: &str = "\n----\n";

/// The text of a file of a folder. Where it can't be read it is lost.
pub fn text_of<R: AllocGlobal + Files>(
    rt: &R,
    out: &mut Spelling,
    folder: &str,
    name: &str,
) -> String {
    let path = out.joined(&[folder, "/", name]);
    match fs::read_to_string(rt, &path) {
        Ok(text) => text,
        Err(error) => {
            out.lose_by(error.kind());
            String::new(out.alloc())
        }
    }
}
