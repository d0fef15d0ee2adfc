//! Lines of standard input.

use ap_defs::limits::SIZE_LIMIT;
use std::alloc::{AllocError, Global};
use std::io::{self, ErrorKind, Read};

const CHUNK: usize = 65_536;

/// A reader, line by line.
#[derive(Drop)]
pub struct Lines<R> {
    reader: R,
    chunk: Vec<u8>,
    at: usize,
    end: usize,
}

/// Adds bytes to a line. What a line has past the limit is left out, but for a byte.
fn add(line: &mut Vec<u8>, bytes: &[u8]) -> Result<(), AllocError> {
    let room = (SIZE_LIMIT + 1).saturating_sub(line.len());
    line.extend_from_slice(&bytes[..bytes.len().min(room)])
}

impl<R: Read + Drop> Lines<R> {
    /// Of a reader of which nothing was read yet.
    pub fn new(alloc: Global, reader: R) -> Result<Lines<R>, AllocError> {
        let chunk = vec![in alloc; 0; CHUNK]?;
        Ok(Lines {
            reader,
            chunk,
            at: 0,
            end: 0,
        })
    }

    /// Reads further bytes, and tells whether there were any.
    fn refill(&mut self) -> io::Result<bool> {
        self.at = 0;
        self.end = 0;
        match self.reader.read(&mut self.chunk) {
            Ok(count) => {
                self.end = count;
                Ok(count > 0)
            }
            Err(_) => Err(ErrorKind::InvalidInput.into()),
        }
    }

    /// Moves the bytes that were read up to the end of a line, and tells whether that was there.
    fn take(&mut self, line: &mut Vec<u8>) -> io::Result<bool> {
        let Some(rest) = self.chunk.get(self.at..self.end) else {
            return Ok(false);
        };
        match rest.iter().position(|byte| *byte == b'\n') {
            Some(count) => {
                add(line, &rest[..count])?;
                self.at = self.at.saturating_add(count).saturating_add(1);
                Ok(true)
            }
            None => {
                add(line, rest)?;
                self.at = self.end;
                Ok(false)
            }
        }
    }

    /// Reads the next line in place of this one, without its end, and tells whether there is one.
    pub fn next(&mut self, line: &mut Vec<u8>) -> io::Result<bool> {
        line.clear();
        for _ in 0..u64::MAX {
            if self.take(line)? {
                return Ok(true);
            }
            if !self.refill()? {
                return Ok(!line.is_empty());
            }
        }
        Ok(false)
    }
}
