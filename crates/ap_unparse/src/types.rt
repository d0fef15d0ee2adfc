//! The text of types.

ghost use Rattle.std.specs.Prelude.{◌≡◌, [], ◌++◌, codes, if◌then◌else◌, OnOk};
ghost use Rattle.ap_trees.specs.Trees.{type_of_tree};
ghost use Rattle.ap_unparse.specs.Written.{bytes_of};
ghost use Rattle.ap_unparse.specs.WrittenTypes.{type_at};

use crate::closing::write_closers;
use ap_defs::memory::Memory;
use ap_trees::TypeTree;
use std::alloc::Global;

/// Writes what stands before the parts of a tuple, and keeps what will stand behind them.
fn begin_tuple(out: &mut Vec<u8>, closers: &mut Vec<u8>, part: bool) -> Result<(), Memory>
    ensures written { OnOk result (out.new.items
        ≡ out.old.items ++ (if part then [] else codes "(")) }
    ensures kept { OnOk result (closers.new.items
        ≡ closers.old.items ++ (if part then [] else codes ")")) }
{
    if !part {
        out.push(b'(')?;
        closers.push(b')')?;
    }
    Ok(())
}

/// Writes a type, by itself or as the right part of a pair.
pub fn write_type(
    alloc: Global,
    out: &mut Vec<u8>,
    t: &TypeTree<'_>,
    mut part: bool,
) -> Result<(), Memory>
    ensures { OnOk result (out.new.items
        ≡ out.old.items ++ bytes_of (type_at part (type_of_tree t.now))) }
{
    let mut closers = Vec::new(alloc);
    let mut rest = t;
    loop {
        match rest {
            TypeTree::Unit => {
                out.extend_from_slice(b"()")?;
                return write_closers(out, closers);
            }
            TypeTree::Word(word) => {
                out.extend_from_slice(word.as_bytes())?;
                return write_closers(out, closers);
            }
            TypeTree::Pair(left, right) => {
                begin_tuple(out, &mut closers, part)?;
                write_type(alloc, out, left, false)?;
                out.extend_from_slice(b", ")?;
                part = true;
                rest = right;
            }
            TypeTree::List(element) => {
                out.push(b'[')?;
                closers.push(b']')?;
                part = false;
                rest = element;
            }
            TypeTree::Abs(word, body) => {
                out.extend_from_slice(word.as_bytes())?;
                out.push(b'\\')?;
                part = false;
                rest = body;
            }
        }
    }
}
