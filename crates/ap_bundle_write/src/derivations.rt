// The lines of terms and derivations.
ghost use Rattle.std.specs.Prelude.{◌≡◌, [], ◌∷◌, ◌++◌, flat_map, List as list, map, OnOk};
ghost use Rattle.ap_bundle.specs.Forms.{name_words};
ghost use Rattle.ap_defs.specs.Terms.{NominalTerm};
ghost use Rattle.ap_defs.specs.Derivations.{terms_in};
ghost use Rattle.ap_bundle.specs.Nodes as nodes;
ghost use Rattle.ap_bundle.specs.Nodes.{preorder};
ghost use Rattle.ap_bundle.specs.Written.{node_line, node_lines, name_line, term_line};
ghost use Rattle.ap_shared.specs.FirstNodes.{children_back, first_node, node_terms, seen};
ghost use Rattle.ap_shared.specs.Shared.{shared_at};
ghost use Rattle.ap_shared.specs.SharedViews.{shared_derivation, shared_terms};
ghost use Rattle.ap_bundle_write.specs.Tables.{IsEntering, WritesLines, held_terms};

use crate::forms::{push_name, push_term};
use crate::lines::{write_count, write_line};
use crate::table::Table;
use ap_bundle::version::Version;
use ap_bundle::words::{Head, NodeWord, Word};
use ap_defs::memory::Memory;
use ap_defs::terms::Name;
use ap_shared::arena::SharedTerms;
use ap_shared::derivations::SharedDerivation;
use ap_shared::expanding::expanded;
use std::alloc::Global;

/// Writes the line of a term in full.
fn write_full_term(
    alloc: Global,
    out: &mut Vec<u8>,
    terms: &SharedTerms,
    line: usize,
) -> Result<(), Memory>
    ensures { OnOk result (out.new.items
        ≡ out.old.items ++ term_line (shared_at (shared_terms terms.now) line)) }
{
    let term = expanded(alloc, terms, line)?;
    let mut words = Vec::new(alloc);
    words.push(Word::Head(Head::T))?;
    push_term(alloc, &mut words, &term)?;
    write_line(alloc, out, &words)
}

/// Enters a term, and writes its number.
fn write_shared_term<'a>(
    alloc: Global,
    out: &mut Vec<u8>,
    table: &mut Table<'a>,
    terms: &'a SharedTerms,
    line: usize,
) -> Result<(), Memory>
    requires { IsEntering (shared_terms terms.now) table.old }
    ensures entering { OnOk result (IsEntering (shared_terms terms.now) table.new) }
    ensures text { OnOk result (WritesLines Version.Two (held_terms table.old)
        (held_terms table.new) out.old.items out.new.items
        (shared_at (shared_terms terms.now) line ∷ [])
        (λ way. way (shared_at (shared_terms terms.now) line))) }
{
    let number = table.enter(alloc, terms, line)?;
    write_count(alloc, out, Head::R, number)
}

/// Writes the line of a term.
fn write_term<'a>(
    alloc: Global,
    out: &mut Vec<u8>,
    version: Version,
    table: &mut Table<'a>,
    terms: &'a SharedTerms,
    line: usize,
) -> Result<(), Memory>
    requires { IsEntering (shared_terms terms.now) table.old }
    ensures entering { OnOk result (IsEntering (shared_terms terms.now) table.new) }
    ensures text { OnOk result (WritesLines version (held_terms table.old) (held_terms table.new)
        out.old.items out.new.items (shared_at (shared_terms terms.now) line ∷ [])
        (λ way. way (shared_at (shared_terms terms.now) line))) }
{
    match version {
        Version::One => write_full_term(alloc, out, terms, line),
        Version::Two => write_shared_term(alloc, out, table, terms, line),
    }
}

/// Writes the lines of terms.
pub(crate) fn write_terms<'a>(
    alloc: Global,
    out: &mut Vec<u8>,
    version: Version,
    table: &mut Table<'a>,
    terms: &'a SharedTerms,
    lines: &[usize],
) -> Result<(), Memory>
    requires { IsEntering (shared_terms terms.now) table.old }
    ensures entering { OnOk result (IsEntering (shared_terms terms.now) table.new) }
    ensures text { OnOk result (WritesLines version (held_terms table.old) (held_terms table.new)
        out.old.items out.new.items (map (shared_at (shared_terms terms.now)) lines.now)
        (λ way. flat_map way (map (shared_at (shared_terms terms.now)) lines.now))) }
{
    for line in lines {
        write_term(alloc, out, version, table, terms, *line)?;
    }
    Ok(())
}

/// Writes the line of a name.
fn write_name(alloc: Global, out: &mut Vec<u8>, name: Name) -> Result<(), Memory>
    ensures { OnOk result (out.new.items ≡ out.old.items ++ name_line name) }
{
    let mut words = Vec::new(alloc);
    words.push(Word::Head(Head::M))?;
    push_name(&mut words, name)?;
    write_line(alloc, out, &words)
}

fn write_names(alloc: Global, out: &mut Vec<u8>, names: &[Name]) -> Result<(), Memory>
    ensures { OnOk result (out.new.items ≡ out.old.items ++ flat_map name_line names.now) }
{
    for name in names {
        write_name(alloc, out, *name)?;
    }
    Ok(())
}

/// Writes the line of a node that is one word.
fn write_node(alloc: Global, out: &mut Vec<u8>, word: NodeWord) -> Result<(), Memory>
    ensures { OnOk result (out.new.items ≡ out.old.items ++ node_line word []) }
{
    write_line(alloc, out, &[Word::Node(word)])
}

/// Writes the first line of an atom.
fn write_atom_line(
    alloc: Global,
    out: &mut Vec<u8>,
    clause: u32,
    names: usize,
    terms: usize,
) -> Result<(), Memory>
    ensures { OnOk result (out.new.items
        ≡ out.old.items
        ++ node_line NodeWord.Atom (Word.Number clause ∷ Word.Number names ∷ Word.Number terms
        ∷ [])) }
{
    let line = [
        Word::Node(NodeWord::Atom),
        Word::Number(u64::from(clause)),
        Word::Number(names as u64),
        Word::Number(terms as u64),
    ];
    write_line(alloc, out, &line)
}

/// Writes the lines of an atom.
fn write_atom<'a>(
    alloc: Global,
    out: &mut Vec<u8>,
    version: Version,
    table: &mut Table<'a>,
    clause: u32,
    names: &[Name],
    terms: &'a SharedTerms,
    lines: &[usize],
) -> Result<(), Memory>
    requires { IsEntering (shared_terms terms.now) table.old }
    ensures entering { OnOk result (IsEntering (shared_terms terms.now) table.new) }
    ensures text { OnOk result (WritesLines version (held_terms table.old) (held_terms table.new)
        out.old.items out.new.items (map (shared_at (shared_terms terms.now)) lines.now)
        (λ way. node_lines way (nodes.atom clause names.now
        (map (shared_at (shared_terms terms.now)) lines.now)))) }
{
    write_atom_line(alloc, out, clause, names.len(), lines.len())?;
    write_names(alloc, out, names)?;
    write_terms(alloc, out, version, table, terms, lines)
}

/// Writes the lines of an `exists`.
fn write_exists<'a>(
    alloc: Global,
    out: &mut Vec<u8>,
    version: Version,
    table: &mut Table<'a>,
    terms: &'a SharedTerms,
    line: usize,
) -> Result<(), Memory>
    requires { IsEntering (shared_terms terms.now) table.old }
    ensures entering { OnOk result (IsEntering (shared_terms terms.now) table.new) }
    ensures text { OnOk result (WritesLines version (held_terms table.old) (held_terms table.new)
        out.old.items out.new.items (shared_at (shared_terms terms.now) line ∷ [])
        (λ way. node_lines way (nodes.exists (shared_at (shared_terms terms.now) line)))) }
{
    write_node(alloc, out, NodeWord::Exists)?;
    write_term(alloc, out, version, table, terms, line)
}

/// Writes the line of a `new`.
fn write_new(alloc: Global, out: &mut Vec<u8>, name: Name) -> Result<(), Memory>
    ensures { OnOk result (out.new.items
        ≡ out.old.items ++ node_line NodeWord.New (name_words name)) }
{
    let mut words = Vec::new(alloc);
    words.push(Word::Node(NodeWord::New))?;
    push_name(&mut words, name)?;
    write_line(alloc, out, &words)
}

/// Writes the lines of the first node of a derivation.
fn write_first<'a>(
    alloc: Global,
    out: &mut Vec<u8>,
    version: Version,
    table: &mut Table<'a>,
    terms: &'a SharedTerms,
    derivation: &'a SharedDerivation,
) -> Result<(), Memory>
    requires { IsEntering (shared_terms terms.now) table.old }
    ensures entering { OnOk result (IsEntering (shared_terms terms.now) table.new) }
    ensures text { OnOk result (WritesLines version (held_terms table.old) (held_terms table.new)
        out.old.items out.new.items (node_terms (first_node
        (shared_derivation (shared_terms terms.now) derivation.now)))
        (λ way. node_lines way (first_node
        (shared_derivation (shared_terms terms.now) derivation.now)))) }
{
    match derivation {
        SharedDerivation::Atom(used, _) => {
            let (names, lines) = (used.names.items(), used.terms.items());
            write_atom(alloc, out, version, table, used.clause, names, terms, lines)
        }
        SharedDerivation::Eq => write_node(alloc, out, NodeWord::Eq),
        SharedDerivation::Fresh => write_node(alloc, out, NodeWord::Fresh),
        SharedDerivation::True => write_node(alloc, out, NodeWord::True),
        SharedDerivation::Both(_, _) => write_node(alloc, out, NodeWord::And),
        SharedDerivation::Left(_) => write_node(alloc, out, NodeWord::Left),
        SharedDerivation::Right(_) => write_node(alloc, out, NodeWord::Right),
        SharedDerivation::Exists(line, _) => write_exists(alloc, out, version, table, terms, *line),
        SharedDerivation::New(name, _) => write_new(alloc, out, **name),
    }
}

/// Puts the children of a derivation on a stack, the first of them last.
fn push_children<'a>(
    pending: &mut Vec<&'a SharedDerivation>,
    derivation: &'a SharedDerivation,
) -> Result<(), Memory>
    ensures { OnOk result ((ts : list NominalTerm) → seen (shared_derivation ts) pending.new.items
        ≡ seen (shared_derivation ts) pending.old.items
        ++ children_back (shared_derivation ts derivation.now)) }
{
    match derivation {
        SharedDerivation::Eq | SharedDerivation::Fresh | SharedDerivation::True => {}
        SharedDerivation::Both(left, right) => {
            pending.push(right)?;
            pending.push(left)?;
        }
        SharedDerivation::Atom(_, child) => pending.push(child)?,
        SharedDerivation::Left(child) => pending.push(child)?,
        SharedDerivation::Right(child) => pending.push(child)?,
        SharedDerivation::Exists(_, child) => pending.push(child)?,
        SharedDerivation::New(_, child) => pending.push(child)?,
    }
    Ok(())
}

/// Writes the nodes of a derivation in preorder. Those that are still to be written stand on a stack.
pub(crate) fn write_derivation<'a>(
    alloc: Global,
    out: &mut Vec<u8>,
    version: Version,
    table: &mut Table<'a>,
    terms: &'a SharedTerms,
    derivation: &'a SharedDerivation,
) -> Result<(), Memory>
    requires { IsEntering (shared_terms terms.now) table.old }
    ensures entering { OnOk result (IsEntering (shared_terms terms.now) table.new) }
    ensures text { OnOk result (WritesLines version (held_terms table.old) (held_terms table.new)
        out.old.items out.new.items
        (terms_in (shared_derivation (shared_terms terms.now) derivation.now))
        (λ way. flat_map (node_lines way) (preorder
        (shared_derivation (shared_terms terms.now) derivation.now)))) }
{
    let mut pending = Vec::new(alloc);
    pending.push(derivation)?;
    while let Some(next) = pending.pop() {
        write_first(alloc, out, version, table, terms, next)?;
        push_children(&mut pending, next)?;
    }
    Ok(())
}
