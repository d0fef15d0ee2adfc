//! Ground proofs with their names exchanged for others.

use crate::spelling::Spelling;

/// The names with lower numbers stay: they may be a query's own, of which none has so many identifiers.
const FIRST: u64 = 64;

/// The numbers from `first` on are exchanged in pairs: two of a pair differ in the bits of `mask`. Those below it
/// stay.
#[derive(Clone, Copy)]
struct Exchange {
    first: u64,
    mask: u64,
}

impl Exchange {
    fn of(self, num: u64) -> u64 {
        if num < self.first {
            num
        } else {
            self.first.saturating_add((num - self.first) ^ self.mask)
        }
    }
}

/// The bits in which the numbers of the names of the N-th proof are changed: from N by a multiplication, below 2 ^
/// 33.
fn mask_of(count: u64) -> u64 {
    (count % 4_294_967_296 * 2_654_435_769) % 8_589_934_592
}

/// Whether a word stands before the sort and the number of a name.
fn names(word: &str) -> bool {
    word == "n" || word == "l" || word == "m" || word == "new"
}

/// Adds a line of a derivation in full, with its names exchanged.
fn put_renamed(made: &mut Spelling, line: &str, exchange: Exchange) {
    let mut left: u32 = 0;
    let mut is_first = true;
    for word in line.split(' ') {
        if !is_first {
            made.put(" ");
        }
        if left == 1 {
            let num = made.long_number(word);
            made.put_number(exchange.of(num), "");
        } else {
            made.put(word);
        }
        left = if names(word) {
            2
        } else {
            left.saturating_sub(1)
        };
        is_first = false;
    }
    made.put("\n");
}

/// Adds the lines of derivations in full, with the names of each exchanged in its own way.
fn put_lines(made: &mut Spelling, lines: &str, first: u64) {
    let mut count: u64 = 0;
    for line in lines.lines() {
        if line.starts_with("derivation ") {
            count = count.saturating_add(1);
        }
        let mask = mask_of(count);
        put_renamed(made, line, Exchange { first, mask });
    }
}

/// A bundle of version 1 whose text has so many bytes, with the names of each of its derivations, which are ground,
/// exchanged for others.
pub fn renamed(out: &mut Spelling, bundle: &[u8], text: usize) -> String {
    let mut made = Spelling::new(out.alloc());
    made.put("alphaprolog bundle 1\ntext ");
    made.put_number(text as u64, "\n");
    let head = made.len();
    let split = head.saturating_add(text).min(bundle.len());
    made.put_bytes(bundle.get(head..split).unwrap_or(&[]));
    let lines = std::str::from_utf8(bundle.get(split..).unwrap_or(&[])).unwrap_or("");
    put_lines(&mut made, lines, FIRST);
    out.taken(made)
}
