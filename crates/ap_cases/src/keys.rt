//! The clauses of a predicate that an atom with some key may enter. The file `keys` has parts: a line with a predicate's
//! number and keys, and a text.

use crate::spelling::Spelling;
use ap_defs::memory::Memory;
use ap_index::index::Index;
use std::alloc::Global;

/// The numbers of the clauses of a predicate whose key agrees; what stood in their place before is gone.
fn kids_by(alloc: Global, index: &Index<'_>, pred: u32, key: u64) -> Result<Vec<u32>, Memory> {
    let mut kids = Vec::from_array(alloc, [7])?;
    index.kids(alloc, pred, key, &mut kids)?;
    Ok(kids)
}

/// Tells the clauses of a predicate for each key.
pub fn put_kids(
    out: &mut Spelling,
    index: &Index<'_>,
    pred: &str,
    keys: &str,
) -> Result<(), Memory> {
    let number = out.number(pred);
    for word in keys.split(' ') {
        let key = out.long_number(word);
        let kids = kids_by(out.alloc(), index, number, key)?;
        out.put_all(&["predicate ", pred, ", key ", word, ": "]);
        out.put_numbers(&kids);
        out.put("\n");
    }
    Ok(())
}
