//! The faults that the bytes of a bundle may have.

ghost use Rattle.std.specs.Prelude.{◌≡◌};
ghost use Rattle.ap_bundle.specs.FaultKinds as spec;

/// Why bytes aren't a bundle. The first line that is wrong counts, and of the faults that it may have
/// `Unended` is told first.
#[derive(Clone, Copy)]
pub enum BundleKind {
    /// A line that is none of those below, a text that no LF follows, or bytes after the last line.
    Header,
    /// The line of a node.
    Node,
    /// The line of a variable, a condition, a name or a term.
    Term,
    /// The bytes end before the line, or the text and its LF, are whole.
    Unended,
    /// The terms so far would be larger than may be read.
    Expanded,
}

impl BundleKind {
    /// The number of the kind, from 1.
    pub fn number(self) -> u32
        ensures { result ≡ spec.bundle_number self }
    {
        match self {
            BundleKind::Header => 1,
            BundleKind::Node => 2,
            BundleKind::Term => 3,
            BundleKind::Unended => 4,
            BundleKind::Expanded => 5,
        }
    }

    /// The word of the kind.
    pub fn word(self) -> &'static str
        ensures { result.now ≡ spec.bundle_word self }
    {
        match self {
            BundleKind::Header => "Header",
            BundleKind::Node => "Node",
            BundleKind::Term => "Term",
            BundleKind::Unended => "Unended",
            BundleKind::Expanded => "Expanded",
        }
    }
}

/// The first fault of a bundle: the line that is wrong, from 1, and why.
#[derive(Clone, Copy)]
pub struct BundleFault {
    pub line: u64,
    pub kind: BundleKind,
}
