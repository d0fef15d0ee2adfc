//! Queries as they stand in a text.

ghost use Rattle.std.specs.Prelude.{◌≡◌, IfOk};
ghost use Rattle.ap_inputs.specs.Questions.{text_with};

use crate::lines::has_mark;
use ap_defs::memory::Memory;
use std::alloc::Global;

/// The loaded text with a query.
pub fn text_with(alloc: Global, loaded: &[u8], query: &[u8]) -> Result<Vec<u8>, Memory>
    ensures { IfOk result (λ v. v.items ≡ text_with loaded.now query.now) }
{
    let mut text = loaded.to_vec(alloc)?;
    if !has_mark(query) {
        text.extend_from_slice(b"?- ")?;
    }
    text.extend_from_slice(query)?;
    Ok(text)
}
