//! Quick looks at words.

ghost use Rattle.std.specs.Prelude.{◌≡◌, ◌<◌};
ghost use Rattle.std.specs.Str.{bytes_eq};
ghost use Rattle.ap_scopes.specs.Marks.{word_mark};

/// How many marks there are.
pub(crate) const MARKS: usize = 1024;

/// A number below 1,024 that equal words share.
///
/// Any multiplier would do; under 207 short words that differ in a digit or two seldom share a mark.
pub(crate) fn mark(word: &str) -> usize
    ensures value { result ≡ word_mark word.now }
    ensures below { result < 1024 }
{
    let bytes = word.as_bytes();
    let mut mark = 0;
    for byte in bytes {
        mark = (mark * 207 + *byte as usize) % MARKS;
    }
    mark
}

/// Whether two words are equal. Most words are short, so it goes byte by byte.
pub(crate) fn is_word(left: &str, right: &str) -> bool
    ensures { result ≡ bytes_eq left.now right.now }
{
    let left = left.as_bytes();
    let right = right.as_bytes();
    if left.len() != right.len() {
        return false;
    }
    'comparing: for place in 0..left.len() {
        if left[place] != right[place] {
            return false;
        }
    }
    true
}
