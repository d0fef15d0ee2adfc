//! The stack of the first thread.
ghost use Rattle.std.specs.Io.{ReadsAtMost};

use std::fs::{File, Files};
use std::io::{self, Read};

// How much is enough. A text may be nested 256 deep, and nothing in its run takes more than 2 KB a level.
const ENOUGH: u64 = 1 << 22;

/// How far a stack may grow, by a line of the limits of a process: a number of bytes, or any.
fn limit_of(line: &str) -> Option<u64> {
    let mut words = line.strip_prefix("Max stack size ")?.split_whitespace();
    match words.next()? {
        "unlimited" => Some(u64::MAX),
        word => word.parse::<u64>().ok(),
    }
}

/// The limits of this process, as Linux writes them.
fn read_limits<R: Files>(rt: &R, room: &mut [u8]) -> io::Result<usize>
    ensures { ReadsAtMost result room.new }
{
    File::open(rt, "/proc/self/limits")?.read(room)
}

/// Whether the stack of the first thread may grow so far that any text can be run on it. It is no where
/// the system doesn't tell. As long as a process has no second thread, taking memory costs less.
pub fn is_stack_large<R: Files>(rt: &R) -> bool {
    let mut room = [0u8; 4096];
    let Ok(count) = read_limits(rt, &mut room) else {
        return false;
    };
    let limits = str::from_utf8(&room[..count]).unwrap_or("");
    limits
        .lines()
        .find_map(limit_of)
        .is_some_and(|limit| limit >= ENOUGH)
}
