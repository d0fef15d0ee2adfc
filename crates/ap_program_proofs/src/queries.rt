//! The queries of a program.

ghost use Rattle.std.specs.Prelude.{◌≡◌, length};
ghost use Rattle.ap_defs.specs.Goals.{program_of};

use ap_index::index::Index;

/// How many queries a program has.
pub(crate) fn query_count(program: &Index<'_>) -> u32
    ensures { result ≡ length (program_of program.now).queries }
{
    program.program().queries.items().len() as u32
}
