//! Lines as they are typed: commands, and queries that end with a full stop.
ghost use Rattle.std.specs.Prelude.{◌≡◌, ◌<◌, ◌≤◌, IfSome, length};
ghost use Rattle.ap_inputs.specs.Lines as spec;

/// What a line holds.
#[derive(Clone, Copy)]
pub enum LineKind {
    /// Blanks, and maybe a comment.
    Empty,
    /// A command: its first mark is `:`.
    Command,
    /// Part of a query.
    Text,
}

/// How many blanks the bytes begin with.
fn leading_blanks(bytes: &[u8]) -> usize
    ensures value { result ≡ spec.leading_blanks bytes.now }
    ensures within { result ≤ length bytes.now }
{
    let mut count = 0;
    for byte in bytes {
        if !byte.is_ascii_whitespace() {
            return count;
        }
        count += 1;
    }
    count
}

/// What a line holds, by the first of its bytes that is no blank.
pub fn kind_of(line: &[u8]) -> LineKind
    ensures { result ≡ spec.line_kind_of line.now }
{
    match &line[leading_blanks(line)..] {
        [] => LineKind::Empty,
        [first, ..] => kind_by(*first),
    }
}

/// What a line holds that begins so.
fn kind_by(first: u8) -> LineKind
    ensures { result ≡ spec.kind_by first }
{
    if first == b'%' {
        LineKind::Empty
    } else if first == b':' {
        LineKind::Command
    } else {
        LineKind::Text
    }
}

/// Whether a line holds a full stop alone.
pub fn is_stop(line: &[u8]) -> bool
    ensures { result ≡ spec.is_stop_line line.now }
{
    match &line[leading_blanks(line)..] {
        [] => false,
        [first, rest @ ..] => *first == b'.' && leading_blanks(rest) == rest.len(),
    }
}

/// Whether a query has its `?-` already.
pub fn has_mark(query: &[u8]) -> bool
    ensures { result ≡ spec.has_mark query.now }
{
    match &query[leading_blanks(query)..] {
        [] => false,
        [_] => false,
        [first, second, ..] => *first == b'?' && *second == b'-',
    }
}

/// Whether the next byte is in a comment, which goes from `%` to the end of the line.
fn comment_after(in_comment: bool, byte: u8) -> bool
    ensures { result ≡ spec.comment_after in_comment byte }
{
    if in_comment {
        byte != b'\n'
    } else {
        byte == b'%'
    }
}

/// How many bytes a line has up to and with its first full stop that is in no comment, where it has one: there
/// a query ends.
pub fn query_end(line: &[u8]) -> Option<usize>
    ensures end { result ≡ spec.query_end line.now }
    ensures within { IfSome result (λ n. (0 < n) × (n ≤ length line.now)) }
{
    let mut in_comment = false;
    for (place, byte) in line.iter().enumerate() {
        if *byte == b'.' && !in_comment {
            return Some(place + 1);
        }
        in_comment = comment_after(in_comment, *byte);
    }
    None
}
