//! What `prove`, `check` and `convert` write.

use crate::call::answer_by;
use crate::spelling::Spelling;
use std::sync::Wait;
use std::thread::Threads;

/// A bundle in both versions.
#[derive(Drop)]
pub struct Written {
    pub full: Vec<u8>,
    pub shared: Vec<u8>,
}

/// Whether a call writes these bytes for an input.
pub fn is_written<R: Threads + Wait + Sync>(
    rt: &R,
    out: &mut Spelling,
    words: &[&str],
    input: &[u8],
    bytes: &[u8],
) -> bool {
    answer_by(rt, out, words, input).bytes.as_slice() == bytes
}

/// Whether `prove` writes these bytes for a text, by one worker and by several.
fn is_bundle_of<R: Threads + Wait + Sync>(
    rt: &R,
    out: &mut Spelling,
    text: &[u8],
    depth: &str,
    bytes: &[u8],
) -> bool {
    let alone = ["prove", "--depth", depth, "--workers", "1"];
    let many = ["prove", "--depth", depth, "--workers", "8"];
    is_written(rt, out, &alone, text, bytes) && is_written(rt, out, &many, text, bytes)
}

/// Whether `check` writes for both versions of a bundle that so many derivations check.
fn are_checked<R: Threads + Wait + Sync>(
    rt: &R,
    out: &mut Spelling,
    written: &Written,
    count: usize,
) -> bool {
    let mut line = Spelling::new(out.alloc());
    line.put("% ");
    line.put_number(count as u64, " derivations checked\n");
    let wanted = out.taken(line);
    is_written(rt, out, &["check"], &written.full, wanted.as_bytes())
        && is_written(rt, out, &["check"], &written.shared, wanted.as_bytes())
}

/// Whether `convert` makes each of two versions of a bundle of these bytes.
fn is_converted<R: Threads + Wait + Sync>(
    rt: &R,
    out: &mut Spelling,
    input: &[u8],
    written: &Written,
) -> bool {
    is_written(rt, out, &["convert", "--to", "1"], input, &written.full)
        && is_written(rt, out, &["convert", "--to", "2"], input, &written.shared)
}

/// Whether `prove` writes the second version for a text, `check` for both versions that so many derivations check,
/// and `convert` each version for each.
pub fn are_proved<R: Threads + Wait + Sync>(
    rt: &R,
    out: &mut Spelling,
    text: &[u8],
    depth: &str,
    written: &Written,
    count: usize,
) -> bool {
    is_bundle_of(rt, out, text, depth, &written.shared)
        && are_checked(rt, out, written, count)
        && is_converted(rt, out, &written.full, written)
        && is_converted(rt, out, &written.shared, written)
}

/// Whether `check` writes the same for both versions of a bundle, with the same status.
pub fn are_checked_alike<R: Threads + Wait + Sync>(
    rt: &R,
    out: &mut Spelling,
    written: &Written,
) -> bool {
    let full = answer_by(rt, out, &["check"], &written.full);
    answer_by(rt, out, &["check"], &written.shared).is_same(&full)
}

/// Tells what `check` writes for bytes, and its status.
pub fn tell_check<R: Threads + Wait + Sync>(rt: &R, out: &mut Spelling, bytes: &[u8]) {
    answer_by(rt, out, &["check"], bytes).tell(out);
}

/// Tells what `check` writes of what `prove` writes of a text to a depth, and its status.
pub fn tell_proved<R: Threads + Wait + Sync>(rt: &R, out: &mut Spelling, depth: &str, text: &[u8]) {
    let proved = answer_by(rt, out, &["prove", "--depth", depth], text);
    tell_check(rt, out, &proved.bytes);
}
