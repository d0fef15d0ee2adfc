//! Laws of what is written and read.

ghost use Rattle.ap_bundle_laws.specs.Laws.{WrittenIsRead, PrefixesAreUnended, ReadAlike, ReadFits, CitedPrefixesAreUnended, SharedIsCited, SharedIsRead, SharedPrefixesAreUnended};

/// What is written of a bundle is read again, and of what is written each proper prefix is refused as
/// unended, at the line at which it ends.
pub fn written_is_read()
    ensures again { WrittenIsRead }
    ensures prefixes { PrefixesAreUnended }
{}

/// The same of what is written in version 2, where the terms together, each in full, are no larger than may
/// be read.
pub fn shared_is_read()
    ensures again { SharedIsRead }
    ensures prefixes { SharedPrefixesAreUnended }
{}

/// The same of what is written in version 2 and read where each term, and not all together, may be as large.
pub fn shared_is_cited()
    ensures again { SharedIsCited }
    ensures prefixes { CitedPrefixesAreUnended }
{}

/// The numbers of a bundle that is read, and the lengths of its lists, are in the ranges of their types.
pub fn what_is_read_fits()
    ensures { ReadFits }
{}

/// Whether the terms may be as large together or each, the same is read, or the same fault, but where they are
/// too large together: that is refused as Expanded.
pub fn readings_are_alike()
    ensures { ReadAlike }
{}
