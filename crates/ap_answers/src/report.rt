//! The lines of a report on a query.

ghost use Rattle.std.specs.Prelude.{◌≡◌, ◌++◌, ◌≤◌, length, map, codes, decimal, OnOk, IfOk};
ghost use Rattle.ap_defs.specs.Types.{locals_of};
ghost use Rattle.ap_defs.specs.Goals.{program_of};
ghost use Rattle.ap_defs.specs.Answers.{outs_of, out_of};
ghost use Rattle.ap_defs.specs.Lines.{is_found, is_cut, is_stuck, count_of, lines_of, line_text, ended, totals_text, query_lines};
ghost use Rattle.ap_answers.specs.Words.{IsTaken};
ghost use Rattle.ap_answers.specs.Runs.{run_length, IsLineFor};

use crate::answers::write_answer;
use crate::words::Taken;
use ap_defs::goals::{Local, Program};
use ap_defs::memory::Memory;
use ap_defs::paths::Out;
use ap_defs::terms::Term;
use std::alloc::Global;

fn is_answer(out: &Out) -> bool
    ensures { result ≡ is_found (out_of out.now) }
{
    matches!(out, Out::Found(..))
}

fn is_cut_off(out: &Out) -> bool
    ensures { result ≡ is_cut (out_of out.now) }
{
    matches!(out, Out::Cut(_))
}

fn is_stuck_out(out: &Out) -> bool
    ensures { result ≡ is_stuck (out_of out.now) }
{
    matches!(out, Out::Stuck(_))
}

/// How many outputs are answers.
fn count_answers(outs: &[Out]) -> usize
    ensures { result ≡ count_of is_found (outs_of outs.now) }
{
    outs.iter().filter(|out| is_answer(out)).count()
}

/// How many outputs are cuts.
fn count_cuts(outs: &[Out]) -> usize
    ensures { result ≡ count_of is_cut (outs_of outs.now) }
{
    outs.iter().filter(|out| is_cut_off(out)).count()
}

/// How many outputs are stuck branches.
fn count_stuck(outs: &[Out]) -> usize
    ensures { result ≡ count_of is_stuck (outs_of outs.now) }
{
    outs.iter().filter(|out| is_stuck_out(out)).count()
}

/// How many outputs at the beginning are cuts.
fn leading_cuts(outs: &[Out]) -> usize
    ensures { result ≡ run_length is_cut (outs_of outs.now) }
{
    let mut count = 0;
    for out in outs {
        if !is_cut_off(out) {
            return count;
        }
        count += 1;
    }
    count
}

/// How many outputs at the beginning are stuck branches.
fn leading_stuck(outs: &[Out]) -> usize
    ensures { result ≡ run_length is_stuck (outs_of outs.now) }
{
    let mut count = 0;
    for out in outs {
        if !is_stuck_out(out) {
            return count;
        }
        count += 1;
    }
    count
}

/// Writes the line of the totals.
fn write_totals(alloc: Global, out: &mut Vec<u8>, query: u32, outs: &[Out]) -> Result<(), Memory>
    ensures { OnOk result (out.new.items
        ≡ out.old.items ++ (totals_text query (outs_of outs.now) ++ codes "\n")) }
{
    let answers = count_answers(outs);
    let cuts = count_cuts(outs);
    let stuck = count_stuck(outs);
    let line = format!(in alloc;
        "% query {query}: {answers} answers, {cuts} cut, {stuck} stuck\n"
    )?;
    out.extend_from_slice(line.as_bytes())?;
    Ok(())
}

/// Writes the line of a run of cuts.
fn write_cuts(alloc: Global, out: &mut Vec<u8>, count: usize) -> Result<(), Memory>
    ensures { OnOk result (out.new.items
        ≡ out.old.items ++ (codes "% cut " ++ decimal count ++ codes "\n")) }
{
    let line = format!(in alloc; "% cut {count}\n")?;
    out.extend_from_slice(line.as_bytes())?;
    Ok(())
}

/// Writes the line of a run of stuck branches.
fn write_stuck(alloc: Global, out: &mut Vec<u8>, count: usize) -> Result<(), Memory>
    ensures { OnOk result (out.new.items
        ≡ out.old.items ++ (codes "% stuck " ++ decimal count ++ codes "\n")) }
{
    let line = format!(in alloc; "% stuck {count}\n")?;
    out.extend_from_slice(line.as_bytes())?;
    Ok(())
}

/// Writes the first line of outputs, of which there is one, and says how many outputs it is for.
fn write_line(
    alloc: Global,
    out: &mut Vec<u8>,
    program: &Program<Term>,
    taken: &Taken<'_>,
    locals: &[Local],
    outs: &[Out],
) -> Result<usize, Memory>
    requires taken { IsTaken program.now.words taken.now }
    requires some { 1 ≤ length outs.now }
    ensures { IfOk result (λ n. IsLineFor (line_text (program_of program.now)
        (locals_of locals.now)) (outs_of outs.now) n out.old.items out.new.items) }
{
    match &outs[0] {
        Out::Found(_, answer) => {
            write_answer(alloc, out, program, taken, locals, answer)?;
            out.push(b'\n')?;
            Ok(1)
        }
        Out::Cut(_) => {
            let count = leading_cuts(outs);
            write_cuts(alloc, out, count)?;
            Ok(count)
        }
        Out::Stuck(_) => {
            let count = leading_stuck(outs);
            write_stuck(alloc, out, count)?;
            Ok(count)
        }
    }
}

/// Writes the lines of outputs.
fn write_lines(
    alloc: Global,
    out: &mut Vec<u8>,
    program: &Program<Term>,
    taken: &Taken<'_>,
    locals: &[Local],
    outs: &[Out],
) -> Result<(), Memory>
    requires { IsTaken program.now.words taken.now }
    ensures { OnOk result (out.new.items
        ≡ out.old.items
        ++ ended (map (line_text (program_of program.now) (locals_of locals.now))
        (lines_of (outs_of outs.now)))) }
{
    let mut rest = outs;
    while !rest.is_empty() {
        let count = write_line(alloc, out, program, taken, locals, rest)?;
        let (_, others) = rest.split_at(count);
        rest = others;
    }
    Ok(())
}

/// The report on a query with this number and these identifiers, where the words of the text are known.
pub fn report(
    alloc: Global,
    program: &Program<Term>,
    taken: &Taken<'_>,
    query: u32,
    locals: &[Local],
    outs: &[Out],
) -> Result<Vec<u8>, Memory>
    requires { IsTaken program.now.words taken.now }
    ensures { IfOk result (λ bytes. bytes.items
        ≡ query_lines (program_of program.now) query (locals_of locals.now) (outs_of outs.now)) }
{
    let mut out = Vec::new(alloc);
    write_lines(alloc, &mut out, program, taken, locals, outs)?;
    write_totals(alloc, &mut out, query, outs)?;
    Ok(out)
}
