//! What is written and said.

use ap_inputs::orders::Channel;
use ap_report::Status;
use std::io::{self, ErrorKind, Write};

/// Writes bytes to standard output.
pub fn write_bytes<R: Print>(rt: &R, bytes: &[u8]) -> io::Result<()> {
    if bytes.is_empty() {
        return Ok(());
    }
    io::writer(rt).write_all(bytes)
}

/// Says a message. Where standard error can't be written, nothing comes of it.
pub fn say<R: Print + Eprint>(rt: &R, channel: Channel, said: &str) -> io::Result<()> {
    match channel {
        Channel::Among => write_bytes(rt, said.as_bytes()),
        Channel::Beside => {
            if !said.is_empty() {
                let _ = eprint!(rt; "{said}");
            }
            Ok(())
        }
    }
}

/// The status with which an error of a stream ends the program.
pub fn status_of(error: &io::Error) -> Status {
    match error.kind() {
        ErrorKind::OutOfMemory => Status::Memory,
        ErrorKind::InvalidInput => Status::Read,
        _ => Status::Write,
    }
}
