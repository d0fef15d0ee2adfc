//! The proper prefixes of bundles. `check` and `convert` must refuse each as unended, at the line at which it ends.

use crate::call::answer_by;
use crate::spelling::Spelling;
use std::sync::Wait;
use std::thread::Threads;

/// Whether a command refuses bytes as unended, at this line.
fn is_unended<R: Threads + Wait + Sync>(
    rt: &R,
    out: &mut Spelling,
    words: &[&str],
    bytes: &[u8],
    line: u64,
) -> bool {
    let mut wanted = Spelling::new(out.alloc());
    wanted.put("% bundle fault: line ");
    wanted.put_number(line, ", kind 4 Unended\n");
    let wanted = out.taken(wanted);
    let refused = answer_by(rt, out, words, bytes);
    refused.status == 2 && refused.bytes.as_slice() == wanted.as_bytes()
}

/// How many proper prefixes a command refuses so.
fn count_unended<R: Threads + Wait + Sync>(
    rt: &R,
    out: &mut Spelling,
    words: &[&str],
    bytes: &[u8],
) -> u64 {
    let mut count: u64 = 0;
    let mut line: u64 = 1;
    for length in 0..bytes.len() {
        if is_unended(rt, out, words, &bytes[..length], line) {
            count = count.saturating_add(1);
        }
        if bytes[length] == b'\n' {
            line = line.saturating_add(1);
        }
    }
    count
}

/// Tells how many of the proper prefixes of a bundle are refused so.
pub fn tell_prefixes<R: Threads + Wait + Sync>(
    rt: &R,
    out: &mut Spelling,
    name: &str,
    bundle: &str,
) {
    let bytes = bundle.as_bytes();
    out.put_all(&[name, ": of "]);
    out.put_number(bytes.len() as u64, " proper prefixes ");
    let checked = count_unended(rt, out, &["check"], bytes);
    out.put_number(checked, " are refused by check and ");
    let converted = count_unended(rt, out, &["convert", "--to", "2"], bytes);
    out.put_number(converted, " by convert\n");
}
