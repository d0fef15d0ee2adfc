// The table of a bundle's terms: each line a term by the lines of its parts.

pub(crate) mod entries;
pub(crate) mod term_lines;
