// A bundle as bytes.
ghost use Rattle.std.specs.Prelude.{◌≡◌, [], ◌∷◌, ◌++◌, flat_map, map, IfOk, OnOk};
ghost use Rattle.ap_defs.specs.Answers.{typed_var_of};
ghost use Rattle.ap_bundle.specs.Tables.{terms_of};
ghost use Rattle.ap_bundle.specs.Versions.{version_line};
ghost use Rattle.ap_bundle.specs.Written as spec;
ghost use Rattle.ap_bundle.specs.Written.{cond_line, entry_line, head_line, written_line_as, listed, proved_lines, text_lines, var_line, written, written_as, written_shared};
ghost use Rattle.ap_shared.specs.Shared.{shared_at};
ghost use Rattle.ap_shared.specs.SharedViews.{shared_answer, shared_bundle, shared_proved, shared_terms};
ghost use Rattle.ap_bundle_write.specs.Tables.{IsEntering, IsWrittenTable, WritesLines, grown_as, held_terms};

use crate::derivations::{write_derivation, write_terms};
use crate::forms::{push_name, push_type};
use crate::lines::{write_count, write_line};
use crate::table::Table;
use ap_bundle::version::Version;
use ap_bundle::words::{Head, Word};
use ap_defs::memory::Memory;
use ap_defs::terms::{Cond, Ty, Var};
use ap_shared::arena::SharedTerms;
use ap_shared::derivations::{SharedAnswer, SharedBundle, SharedProved};
use std::alloc::Global;

/// Writes the line of a variable.
fn write_var(alloc: Global, out: &mut Vec<u8>, var: &(Var, Ty)) -> Result<(), Memory>
    ensures { OnOk result (out.new.items ≡ out.old.items ++ var_line (typed_var_of var.now)) }
{
    let (var, ty) = var;
    let mut words = Vec::new(alloc);
    words.push(Word::Head(Head::V))?;
    words.push(Word::Number(var.num))?;
    push_type(alloc, &mut words, ty)?;
    write_line(alloc, out, &words)
}

fn write_vars(alloc: Global, out: &mut Vec<u8>, vars: &[(Var, Ty)]) -> Result<(), Memory>
    ensures { OnOk result (out.new.items
        ≡ out.old.items ++ flat_map var_line (map typed_var_of vars.now)) }
{
    for var in vars {
        write_var(alloc, out, var)?;
    }
    Ok(())
}

/// Writes the line of a condition.
fn write_cond(alloc: Global, out: &mut Vec<u8>, cond: Cond) -> Result<(), Memory>
    ensures { OnOk result (out.new.items ≡ out.old.items ++ cond_line cond) }
{
    let mut words = Vec::new(alloc);
    words.push(Word::Head(Head::C))?;
    push_name(&mut words, cond.name)?;
    words.push(Word::Number(cond.var.num))?;
    write_line(alloc, out, &words)
}

fn write_conds(alloc: Global, out: &mut Vec<u8>, conds: &[Cond]) -> Result<(), Memory>
    ensures { OnOk result (out.new.items ≡ out.old.items ++ flat_map cond_line conds.now) }
{
    for cond in conds {
        write_cond(alloc, out, *cond)?;
    }
    Ok(())
}

/// Writes how many variables there are, and each.
fn write_listed_vars(alloc: Global, out: &mut Vec<u8>, vars: &[(Var, Ty)]) -> Result<(), Memory>
    ensures { OnOk result (out.new.items
        ≡ out.old.items ++ listed Head.Vars var_line (map typed_var_of vars.now)) }
{
    write_count(alloc, out, Head::Vars, vars.len())?;
    write_vars(alloc, out, vars)
}

/// Writes how many conditions there are, and each.
fn write_listed_conds(alloc: Global, out: &mut Vec<u8>, conds: &[Cond]) -> Result<(), Memory>
    ensures { OnOk result (out.new.items ≡ out.old.items ++ listed Head.Conds cond_line conds.now) }
{
    write_count(alloc, out, Head::Conds, conds.len())?;
    write_conds(alloc, out, conds)
}

/// Writes how many bindings there are, and each.
fn write_listed_binds<'a>(
    alloc: Global,
    out: &mut Vec<u8>,
    version: Version,
    table: &mut Table<'a>,
    terms: &'a SharedTerms,
    binds: &[usize],
) -> Result<(), Memory>
    requires { IsEntering (shared_terms terms.now) table.old }
    ensures entering { OnOk result (IsEntering (shared_terms terms.now) table.new) }
    ensures text { OnOk result (WritesLines version (held_terms table.old) (held_terms table.new)
        out.old.items out.new.items (map (shared_at (shared_terms terms.now)) binds.now)
        (λ way. listed Head.Binds way (map (shared_at (shared_terms terms.now)) binds.now))) }
{
    write_count(alloc, out, Head::Binds, binds.len())?;
    write_terms(alloc, out, version, table, terms, binds)
}

/// Writes an answer: its variables, its conditions and its bindings.
fn write_answer<'a>(
    alloc: Global,
    out: &mut Vec<u8>,
    version: Version,
    table: &mut Table<'a>,
    terms: &'a SharedTerms,
    answer: &SharedAnswer,
) -> Result<(), Memory>
    requires { IsEntering (shared_terms terms.now) table.old }
    ensures entering { OnOk result (IsEntering (shared_terms terms.now) table.new) }
    ensures text { OnOk result (WritesLines version (held_terms table.old) (held_terms table.new)
        out.old.items out.new.items (shared_answer (shared_terms terms.now) answer.now).binds
        (λ way. spec.answer_lines way (shared_answer (shared_terms terms.now) answer.now))) }
{
    write_listed_vars(alloc, out, answer.vars.items())?;
    write_listed_conds(alloc, out, answer.conds.items())?;
    write_listed_binds(alloc, out, version, table, terms, answer.binds.items())
}

/// Writes an answer with its derivation.
fn write_proved<'a>(
    alloc: Global,
    out: &mut Vec<u8>,
    version: Version,
    table: &mut Table<'a>,
    proved: &'a SharedProved,
) -> Result<(), Memory>
    requires { IsWrittenTable table.old }
    ensures table { OnOk result (IsWrittenTable table.new) }
    ensures text { OnOk result (WritesLines version (held_terms table.old) (held_terms table.new)
        out.old.items out.new.items (terms_of (shared_proved proved.now)) (λ way. proved_lines way
        (shared_proved proved.now))) }
{
    let terms = proved.terms.as_ref();
    table.start(alloc);
    write_count(alloc, out, Head::Derivation, proved.query as usize)?;
    write_answer(alloc, out, version, table, terms, &proved.answer)?;
    write_derivation(alloc, out, version, table, terms, &proved.derivation)
}

fn write_each<'a>(
    alloc: Global,
    out: &mut Vec<u8>,
    version: Version,
    table: &mut Table<'a>,
    all: &'a [SharedProved],
) -> Result<(), Memory>
    requires { IsWrittenTable table.old }
    ensures table { OnOk result (IsWrittenTable table.new) }
    ensures text { OnOk result (WritesLines version (held_terms table.old) (held_terms table.new)
        out.old.items out.new.items (flat_map terms_of (map shared_proved all.now)) (λ way. flat_map
        (proved_lines way) (map shared_proved all.now))) }
{
    for proved in all {
        write_proved(alloc, out, version, table, proved)?;
    }
    Ok(())
}

/// Writes the text.
fn write_text(alloc: Global, out: &mut Vec<u8>, text: &[u8]) -> Result<(), Memory>
    ensures { OnOk result (out.new.items ≡ out.old.items ++ text_lines text.now) }
{
    write_count(alloc, out, Head::Text, text.len())?;
    out.extend_from_slice(text)?;
    out.push(b'\n')?;
    Ok(())
}

/// What follows the text and the table. The table grows by its terms.
fn proved_part<'a>(
    alloc: Global,
    version: Version,
    table: &mut Table<'a>,
    proved: &'a [SharedProved],
) -> Result<Vec<u8>, Memory>
    requires { IsWrittenTable table.old }
    ensures table { OnOk result (IsWrittenTable table.new) }
    ensures held { OnOk result (held_terms table.new
        ≡ grown_as version (held_terms table.old)
        (flat_map terms_of (map shared_proved proved.now))) }
    ensures text { IfOk result (λ bytes. bytes.items
        ≡ spec.proved_part (written_line_as version (held_terms table.new))
        (map shared_proved proved.now)) }
{
    let mut out = Vec::new(alloc);
    write_count(alloc, &mut out, Head::Derivations, proved.len())?;
    write_each(alloc, &mut out, version, table, proved)?;
    write_line(alloc, &mut out, &[Word::Head(Head::End)])?;
    Ok(out)
}

/// Writes a line of the table.
fn write_entry(alloc: Global, out: &mut Vec<u8>, words: &[Word]) -> Result<(), Memory>
    ensures { OnOk result (out.new.items ≡ out.old.items ++ head_line Head.T words.now) }
{
    let mut line = Vec::new(alloc);
    line.push(Word::Head(Head::T))?;
    line.extend_from_slice(words)?;
    write_line(alloc, out, &line)
}

fn write_entries(alloc: Global, out: &mut Vec<u8>, lines: &[Vec<Word>]) -> Result<(), Memory>
    ensures { OnOk result (out.new.items
        ≡ out.old.items ++ flat_map (head_line Head.T) (map (λ v. v.items) lines.now)) }
{
    for words in lines {
        write_entry(alloc, out, words)?;
    }
    Ok(())
}

/// Writes the table.
fn write_table(alloc: Global, out: &mut Vec<u8>, table: &Table<'_>) -> Result<(), Memory>
    requires { IsWrittenTable table.now }
    ensures { OnOk result (out.new.items
        ≡ out.old.items
        ++ listed Head.Terms (entry_line (held_terms table.now)) (held_terms table.now)) }
{
    let lines = table.lines();
    write_count(alloc, out, Head::Terms, lines.len())?;
    write_entries(alloc, out, lines)
}

/// The first line, and the text.
fn start_of(alloc: Global, version: Version, text: &[u8]) -> Result<Vec<u8>, Memory>
    ensures { IfOk result (λ out. out.items
        ≡ (version_line version ++ 10 ∷ []) ++ text_lines text.now) }
{
    let mut out = Vec::new(alloc);
    out.extend_from_slice(version.first_line().as_bytes())?;
    out.push(b'\n')?;
    write_text(alloc, &mut out, text)?;
    Ok(out)
}

/// The bytes of a bundle of version 1, in which each term is written in full.
pub fn write_bundle(alloc: Global, bundle: &SharedBundle) -> Result<Vec<u8>, Memory>
    ensures { IfOk result (λ bytes. bytes.items ≡ written (shared_bundle bundle.now)) }
{
    let mut table = Table::new(alloc);
    let part = proved_part(alloc, Version::One, &mut table, bundle.proved.items())?;
    let mut out = start_of(alloc, Version::One, bundle.text.items())?;
    out.extend_from_slice(&part)?;
    Ok(out)
}

/// The bytes of a bundle of version 2, in which each different term stands once, in a table.
fn write_shared(alloc: Global, bundle: &SharedBundle) -> Result<Vec<u8>, Memory>
    ensures { IfOk result (λ bytes. bytes.items ≡ written_shared (shared_bundle bundle.now)) }
{
    let mut table = Table::new(alloc);
    let part = proved_part(alloc, Version::Two, &mut table, bundle.proved.items())?;
    let mut out = start_of(alloc, Version::Two, bundle.text.items())?;
    write_table(alloc, &mut out, &table)?;
    out.extend_from_slice(&part)?;
    Ok(out)
}

/// The bytes of a bundle of this version.
pub fn write_version(
    alloc: Global,
    bundle: &SharedBundle,
    version: Version,
) -> Result<Vec<u8>, Memory>
    ensures { IfOk result (λ bytes. bytes.items ≡ written_as version (shared_bundle bundle.now)) }
{
    match version {
        Version::One => write_bundle(alloc, bundle),
        Version::Two => write_shared(alloc, bundle),
    }
}
