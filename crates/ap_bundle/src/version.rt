//! The versions of bundles.

ghost use Rattle.std.specs.Prelude.{◌≡◌};
ghost use Rattle.ap_bundle.specs.Versions as spec;

/// How the terms of a bundle are written.
#[derive(Clone, Copy)]
pub enum Version {
    /// Each in full.
    One,
    /// By their lines in a table, in which each different term stands once.
    Two,
}

impl Version {
    /// The first line of a bundle of this version, without its LF.
    pub fn first_line(self) -> &'static str
        ensures { result.now ≡ spec.version_line self }
    {
        match self {
            Version::One => "alphaprolog bundle 1",
            Version::Two => "alphaprolog bundle 2",
        }
    }
}
