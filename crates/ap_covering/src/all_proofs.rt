//! The lines of all proofs.

ghost use Rattle.std.specs.Prelude.{◌≡◌, ◌++◌, IfOk, OnOk, map};
ghost use Rattle.ap_defs.specs.Answers.{outs_of};
ghost use Rattle.ap_defs.specs.Derivations.{derivation_of, path};
ghost use Rattle.ap_defs.specs.Goals.{program_of};
ghost use Rattle.ap_bundle.specs.Bundles.{proved_of};
ghost use Rattle.ap_cover.specs.Covers.{cover_of};
ghost use Rattle.ap_covering.specs.CoverLines.{cover_line};
ghost use Rattle.ap_covering.specs.ProofLines.{cover_lines};

use crate::lines::write_cover;
use crate::searched::{nothing_searched, searched_for};
use ap_cover::covers::cover_of;
use ap_cover::path::path_of;
use ap_defs::limits::{Depth, Workers};
use ap_defs::memory::Memory;
use ap_defs::outcomes::Proved;
use ap_defs::paths::Out;
use ap_index::index::Index;
use ap_io::Gate;
use std::alloc::Global;
use std::sync::Wait;
use std::thread::Threads;

/// Writes the line of the proof with this number, among these outputs of its query.
fn write_proof(
    alloc: Global,
    out: &mut Vec<u8>,
    number: usize,
    proved: &Proved,
    outs: &[Out],
) -> Result<(), Memory>
    ensures { OnOk result (out.new.items ≡ out.old.items ++ cover_line number proved.now.query
        (cover_of (path (derivation_of proved.now.derivation)) (outs_of outs.now))) }
{
    let path = path_of(alloc, &proved.derivation)?;
    let cover = cover_of(&path, outs);
    write_cover(alloc, out, number, proved.query, cover)
}

/// The lines of proofs. A query is searched once for proofs of it that follow one another.
pub fn lines_of_proofs<R: Threads + Wait + Sync, G: Gate>(
    rt: &R,
    alloc: Global,
    gate: &G,
    depth: Depth,
    workers: Workers,
    program: &Index<'_>,
    proved: &[Proved],
) -> Result<Vec<u8>, Memory>
    ensures { IfOk result (λ v. v.items
        ≡ cover_lines (program_of program.now) depth 1 (map proved_of proved.now)) }
{
    let mut out = Vec::new(alloc);
    let mut last = nothing_searched(alloc);
    for i in 0..proved.len() {
        let one = &proved[i];
        let next = searched_for(rt, alloc, gate, depth, workers, &*program, last, one.query)?;
        write_proof(alloc, &mut out, i + 1, one, &next.outs)?;
        last = next;
    }
    Ok(out)
}
