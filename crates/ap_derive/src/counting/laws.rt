//! A law of counts.
ghost use Rattle.ap_derive.specs.CountLaws.{SumsAreCounts};

/// The sum of the tables of two parts, each of which is cut off at the greatest number, is the table of both.
pub fn sums_are_counts()
    ensures { SumsAreCounts }
{}
