//! Bundles of the folder `bundles`: what is wrong with their bytes, or what each derivation in them comes to.
//!
//! The file `names` of the folder has a line for each. Of a bundle that is read it is told, too, whether the bytes that
//! are written of it are those that were read, and whether `check` writes the same for both of its versions. Then comes
//! what `check` writes.

use crate::files::text_of;
use crate::problems::program_of;
use crate::proving::{Written, are_checked_alike, tell_check};
use crate::spelling::Spelling;
use ap_bundle::version::Version;
use ap_bundle_read::{BundleError, read_bundle};
use ap_bundle_write::write_version;
use ap_checker::verify::verify;
use ap_defs::memory::Memory;
use ap_defs::outcomes::{Bundle, Proved, Verdict};
use ap_program::restricted::Restricted;
use ap_shared::derivations::SharedBundle;
use ap_shared::sharing::{share_bundle, shared};
use std::alloc::Global;
use std::fs::Files;
use std::sync::Wait;
use std::thread::Threads;

/// The verdict on a derivation that a bundle has.
pub fn verdict_on(alloc: Global, program: &Restricted, proved: &Proved) -> Result<Verdict, Memory> {
    let found = shared(alloc, proved)?;
    verify(
        alloc,
        program,
        found.query,
        found.terms.as_ref(),
        &found.answer,
        &found.derivation,
    )
}

/// Tells what a derivation of a query comes to.
fn tell_verdict(out: &mut Spelling, query: u32, verdict: Verdict) {
    out.put("query ");
    match verdict {
        Verdict::Yes => out.put_number(query as u64, ": checks\n"),
        Verdict::No { node, rule } => {
            out.put_number(query as u64, ": node ");
            out.put_number(node as u64, ", rule ");
            out.put_number(rule as u64, "\n");
        }
    }
}

/// Tells what each of these derivations comes to.
fn tell_verdicts(out: &mut Spelling, program: &Restricted, all: &[Proved]) {
    for proved in all {
        match verdict_on(out.alloc(), program, proved) {
            Ok(verdict) => tell_verdict(out, proved.query, verdict),
            Err(Memory) => out.lose(),
        }
    }
}

/// Tells what each derivation of a bundle comes to, if its text has no fault.
fn tell_derivations(out: &mut Spelling, bundle: &Bundle) {
    match program_of(out.alloc(), bundle.text.items()) {
        Ok(Some(program)) => tell_verdicts(out, &program, bundle.proved.items()),
        Ok(None) => {}
        Err(Memory) => out.lose(),
    }
}

/// Both versions of a bundle.
pub fn both_versions(alloc: Global, bundle: &SharedBundle) -> Result<Written, Memory> {
    let full = write_version(alloc, bundle, Version::One)?;
    let shared = write_version(alloc, bundle, Version::Two)?;
    Ok(Written { full, shared })
}

/// The same of a bundle whose terms share nothing yet.
pub fn versions_of(alloc: Global, bundle: &Bundle) -> Result<Written, Memory> {
    let shared = share_bundle(alloc, bundle)?;
    both_versions(alloc, &shared)
}

/// Adds a name and whether it is so.
fn put_whether(out: &mut Spelling, name: &str, is_so: bool) {
    let word = if is_so { "true" } else { "false" };
    out.put_all(&[name, ": ", word, "\n"]);
}

/// Tells what a bundle comes to that was read of these bytes, with its versions.
fn tell_written<R: Threads + Wait + Sync>(
    rt: &R,
    out: &mut Spelling,
    written: &Written,
    bytes: &[u8],
) {
    let same = written.full.as_slice() == bytes || written.shared.as_slice() == bytes;
    put_whether(out, "written again the same", same);
    let alike = are_checked_alike(rt, out, written);
    put_whether(out, "checked alike in both versions", alike);
}

/// Tells what bytes come to as a bundle.
fn tell_bundle<R: Threads + Wait + Sync>(rt: &R, out: &mut Spelling, bytes: &[u8]) {
    match read_bundle(out.alloc(), bytes) {
        Ok(bundle) => {
            match versions_of(out.alloc(), &bundle) {
                Ok(written) => tell_written(rt, out, &written, bytes),
                Err(Memory) => out.lose(),
            }
            tell_derivations(out, &bundle);
        }
        Err(BundleError::Fault(fault)) => {
            out.put("line ");
            out.put_number(fault.line, ", kind ");
            out.put_number(fault.kind.number() as u64, " ");
            out.put_all(&[fault.kind.word(), "\n"]);
        }
        Err(BundleError::Memory) => out.lose(),
    }
}

/// Tells what each bundle of the folder comes to.
pub fn tell_bundles<R: Threads + Wait + Sync + AllocGlobal + Files>(rt: &R, out: &mut Spelling) {
    for name in text_of(rt, out, "bundles", "names").lines() {
        out.put_all(&["% ", name, "\n"]);
        let text = text_of(rt, out, "bundles", name);
        tell_bundle(rt, out, text.as_bytes());
        tell_check(rt, out, text.as_bytes());
    }
}
