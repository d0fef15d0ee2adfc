//! Documents of the derivations of a bundle whose check found nothing to refuse.

ghost use Rattle.std.specs.Prelude.{◌≡◌, ◌≤◌, ℕ, Ok, List as list, length, map, IfOk, OnOk};
ghost use Rattle.ap_bundle.specs.Bundles.{bundle_of, proved_of};
ghost use Rattle.ap_defs.specs.Goals.{program_of};
ghost use Rattle.ap_defs.specs.Limits.{size_limit};
ghost use Rattle.ap_defs.specs.Printing.{has_word};
ghost use Rattle.ap_answers.specs.Words.{knows};
ghost use Rattle.ap_bundle.specs.Reading.{cited_reading};
ghost use Rattle.ap_documents.specs.Documents.{AreWritten, IsDocument, IsShownDocument, IsShownBundle, IsDocumentWritten, PassesCheck};

use crate::predicates::predicate_words;
use ap_answers::printing::words_in;
use ap_bundle_read::{BundleError, read_bundle};
use ap_bundle_reports::lines::bundle_fault_report;
use ap_defs::lists::{List, Text};
use ap_defs::memory::Memory;
use ap_defs::outcomes::{Bundle, Proved};
use ap_program::restricted::Restricted;
use ap_report::{Report, Status};
use ap_steps::pages::{Format, write_beginning, write_derivation, write_end};
use ap_steps::proved::steps_of;
use ap_text::{TextError, program_of_text};
use std::alloc::Global;
use std::collections::HashSet;

/// Writes a derivation of an answer to a query of a program, with its words.
fn write_proved(
    alloc: Global,
    out: &mut Vec<u8>,
    format: Format,
    program: &Restricted,
    taken: &HashSet<&str>,
    words: &[Text],
    proved: &Proved,
) -> Result<(), Memory>
    requires { (w : list ℕ) → knows taken.now w ≡ has_word w program.now.words }
    ensures { OnOk result (IsDocumentWritten format (program_of program.now) words.now
        (proved_of proved.now) out.old.items out.new.items) }
{
    let steps = steps_of(alloc, program.program(), taken, words, proved)?;
    write_derivation(alloc, out, format, steps.as_slice())?;
    Ok(())
}

/// Writes derivations of answers to the queries of a program.
fn write_derivations(
    alloc: Global,
    out: &mut Vec<u8>,
    format: Format,
    program: &Restricted,
    words: &[Text],
    proved: &[Proved],
) -> Result<(), Memory>
    ensures { OnOk result (AreWritten format (program_of program.now) words.now
        (map proved_of proved.now) out.old.items out.new.items) }
{
    let taken = words_in(alloc, program)?;
    let mut rest = proved;
    'derivations: while let Some((first, others)) = rest.split_first() {
        write_proved(alloc, out, format, program, &taken, words, first)?;
        rest = others;
    }
    Ok(())
}

/// A document of derivations of answers to the queries of a program.
fn document_of(
    alloc: Global,
    format: Format,
    program: &Restricted,
    words: &[Text],
    proved: &[Proved],
) -> Result<Report, Memory>
    ensures document { IfOk result (λ r. IsDocument format (program_of program.now) words.now
        (map proved_of proved.now) r.bytes) }
    ensures status { IfOk result (λ r. r.status ≡ Status.Ok) }
{
    let mut out = Vec::new(alloc);
    write_beginning(alloc, &mut out, format, proved.len())?;
    write_derivations(alloc, &mut out, format, program, words, proved)?;
    write_end(&mut out, format)?;
    Ok(Report {
        bytes: List::of(out),
        status: Status::Ok,
    })
}

/// A document of a bundle whose check found nothing to refuse.
fn document_of_bundle(alloc: Global, format: Format, bundle: &Bundle) -> Result<Report, Memory>
    requires short { length bundle.now.text ≤ size_limit }
    requires passes { PassesCheck (Ok (bundle_of bundle.now)) }
    ensures { IfOk result (λ r. IsShownBundle format (bundle_of bundle.now) r) }
{
    match program_of_text(alloc, bundle.text.items()) {
        Ok(program) => {
            let words = predicate_words(alloc, bundle.text.items())?;
            document_of(
                alloc,
                format,
                &program,
                words.as_slice(),
                bundle.proved.items(),
            )
        }
        Err(TextError::Fault(_)) => unreachable!(),
        Err(TextError::Memory) => Err(Memory),
    }
}

/// A document of the bundle that bytes are, whose check found nothing to refuse; or the line of the fault of one whose terms
/// together are too large to be written in full. `Err` is want of memory.
pub fn document_of_bytes(alloc: Global, format: Format, bytes: &[u8]) -> Result<Report, Memory>
    requires short { length bytes.now ≤ size_limit }
    requires passes { PassesCheck (cited_reading bytes.now) }
    ensures { IfOk result (λ r. IsShownDocument format bytes.now r) }
{
    match read_bundle(alloc, bytes) {
        Ok(bundle) => document_of_bundle(alloc, format, &bundle),
        Err(BundleError::Fault(fault)) => bundle_fault_report(alloc, fault),
        Err(BundleError::Memory) => Err(Memory),
    }
}
