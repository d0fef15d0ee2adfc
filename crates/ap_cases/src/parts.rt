//! What this program writes, part by part.

use crate::bundles::tell_bundles;
use crate::calls::call_all;
use crate::cases::run_texts;
use crate::command_lines::{run_all_lines, run_command};
use crate::explained::{explain_bytes, explain_texts};
use crate::failing::run_failing;
use crate::files::{DIVIDER, text_of};
use crate::folders::{Task, go_through_folder};
use crate::large::run_large;
use crate::measures::measure;
use crate::pages::{show, show_pages};
use crate::prefixes::tell_prefixes;
use crate::questions::{Question, Search, put_answer};
use crate::shown::Reading;
use crate::spelling::Spelling;
use crate::streams::run_commands;
use crate::texts::{go_round, read_texts};
use crate::visits::visit_text;
use ap_steps::pages::Format;
use std::fs::Files;
use std::sync::Wait;
use std::thread::Threads;

/// What each part of a file is, between lines of four dashes.
#[derive(Clone, Copy)]
pub enum Cases {
    /// A command line and its input.
    Commands,
    /// A depth and a text, of whose search the outputs are told.
    Outputs,
    /// A text, of whose search the branches at some paths are told.
    Branches,
    /// What is asked of a visit, and a text.
    Visits,
    /// A predicate and keys, and a text.
    Keys,
    /// A depth and a bundle.
    Calls,
    /// A command line, rows and a text.
    Failing,
    /// A title, a command line and a template.
    Large,
}

/// What is done with the text of a file.
#[derive(Clone, Copy)]
pub enum Work {
    /// Its texts are run.
    Texts,
    /// Its command lines are run on one text.
    Lines,
    /// Each of its parts is gone through by itself.
    Parts(Cases),
    /// Each proper prefix of the bundle that it is is refused.
    Prefixes,
    /// Its texts are read.
    Read(Reading),
    /// The large goals that it tells of are read and written.
    Round,
    /// The faults of its texts are explained.
    Explained,
    /// The bundle that it is is shown.
    Shown(Format),
    /// The bundle that it is is shown in each format.
    Pages,
}

/// A part of what is written.
#[derive(Clone, Copy)]
pub enum Part {
    /// A line with a title.
    Title(&'static str),
    /// What is done with a file of a folder.
    File(Work, &'static str, &'static str),
    /// A task that is done on the texts of a folder.
    Folder(Task, &'static str),
    /// The command lines of a folder, which are run on streams.
    Streams(&'static str),
    /// Bundles that are read and checked.
    Bundles,
    /// The faults of texts that are not UTF-8, explained.
    Bytes,
    /// A measurement, by its word.
    Measure(&'static str),
}

/// What is written, part by part.
pub const PARTS: [Part; 90] = [
    Part::File(Work::Texts, ".", "substituted.cases"),
    Part::File(Work::Texts, ".", "substituted_to_2.cases"),
    Part::File(Work::Texts, ".", "substituted_to_0.cases"),
    Part::File(Work::Texts, ".", "substituted_back.cases"),
    Part::File(Work::Texts, ".", "equations.cases"),
    Part::File(Work::Texts, ".", "typed.cases"),
    Part::File(Work::Texts, ".", "searched_to_1.cases"),
    Part::File(Work::Texts, ".", "searched_to_4.cases"),
    Part::File(Work::Texts, ".", "spelled.cases"),
    Part::File(Work::Texts, ".", "listed.cases"),
    Part::File(Work::Texts, ".", "restricted.cases"),
    Part::File(Work::Texts, ".", "runs.cases"),
    Part::File(Work::Texts, ".", "syntax.cases"),
    Part::File(Work::Texts, ".", "types.cases"),
    Part::File(Work::Texts, ".", "several_types.cases"),
    Part::File(Work::Texts, ".", "swapped.cases"),
    Part::File(Work::Texts, ".", "names.cases"),
    Part::File(Work::Texts, ".", "head_names.cases"),
    Part::File(Work::Texts, ".", "variables.cases"),
    Part::File(Work::Texts, ".", "name_faults.cases"),
    Part::File(Work::Texts, ".", "nested.cases"),
    Part::File(Work::Texts, ".", "grammar.cases"),
    Part::File(Work::Texts, ".", "sampled_to_0.cases"),
    Part::File(Work::Texts, ".", "sampled_to_1.cases"),
    Part::File(Work::Texts, ".", "sampled_to_2.cases"),
    Part::File(Work::Texts, ".", "sampled_to_3.cases"),
    Part::File(Work::Texts, ".", "sampled_to_4.cases"),
    Part::File(Work::Lines, ".", "words"),
    Part::File(Work::Parts(Cases::Commands), ".", "commands.cases"),
    Part::File(Work::Parts(Cases::Commands), ".", "convert.cases"),
    Part::File(Work::Parts(Cases::Commands), ".", "work.cases"),
    Part::File(Work::Parts(Cases::Commands), ".", "count.cases"),
    Part::File(Work::Parts(Cases::Commands), ".", "cover.cases"),
    Part::File(Work::Parts(Cases::Commands), ".", "examine.cases"),
    Part::File(Work::Parts(Cases::Commands), ".", "answers.cases"),
    Part::File(Work::Parts(Cases::Outputs), ".", "outputs"),
    Part::File(Work::Parts(Cases::Branches), ".", "branches"),
    Part::File(Work::Parts(Cases::Visits), ".", "visits"),
    Part::File(Work::Parts(Cases::Keys), ".", "keys"),
    Part::Folder(Task::Run, "bytes"),
    Part::Folder(Task::Run, "examples"),
    Part::Folder(Task::Examine, "examples"),
    Part::Streams("examples"),
    Part::Bundles,
    Part::Title("prefixes"),
    Part::File(Work::Prefixes, "bundles", "small"),
    Part::File(Work::Prefixes, "bundles", "shared"),
    Part::Title("derivations"),
    Part::Folder(Task::Prove, "examples"),
    Part::Folder(Task::Check, "examples"),
    Part::File(Work::Parts(Cases::Calls), ".", "calls.cases"),
    Part::File(Work::Parts(Cases::Failing), ".", "failing"),
    Part::File(Work::Parts(Cases::Large), ".", "large"),
    Part::File(Work::Read(Reading::Tokens), "read", "tokens"),
    Part::File(Work::Read(Reading::Items), "read", "items"),
    Part::File(Work::Read(Reading::Items), "read", "terms"),
    Part::File(Work::Read(Reading::Items), "read", "goals"),
    Part::File(Work::Read(Reading::Term), "read", "whole_terms"),
    Part::File(Work::Read(Reading::Type), "read", "whole_types"),
    Part::File(Work::Read(Reading::Part), "read", "written"),
    Part::File(Work::Read(Reading::Nest), "read", "nested"),
    Part::File(Work::Read(Reading::Typed), "read", "typed"),
    Part::File(Work::Round, "read", "large"),
    Part::File(Work::Explained, "explained", "mistakes.cases"),
    Part::File(Work::Explained, "explained", "characters.cases"),
    Part::File(Work::Explained, "explained", "grammar.cases"),
    Part::File(Work::Explained, "explained", "nesting.cases"),
    Part::File(Work::Explained, "explained", "words.cases"),
    Part::File(Work::Explained, "explained", "clashes.cases"),
    Part::File(Work::Explained, "explained", "kinds.cases"),
    Part::File(Work::Explained, "explained", "names.cases"),
    Part::File(Work::Explained, "explained", "lines.cases"),
    Part::File(Work::Explained, "explained", "remarks.cases"),
    Part::Bytes,
    Part::File(Work::Shown(Format::Text), "shown", "first"),
    Part::File(Work::Shown(Format::Text), "shown", "types"),
    Part::File(Work::Shown(Format::Text), "shown", "evaluation"),
    Part::File(Work::Shown(Format::Text), "shown", "system_f"),
    Part::File(Work::Shown(Format::Text), "shown", "processes"),
    Part::File(Work::Shown(Format::Text), "shown", "debruijn"),
    Part::File(Work::Pages, "shown", "substitution"),
    Part::File(Work::Pages, "shown", "hostile"),
    Part::File(Work::Pages, "shown", "forged_fresh"),
    Part::File(Work::Pages, "shown", "forged_head"),
    Part::File(Work::Pages, "shown", "faulty_text"),
    Part::File(Work::Pages, "shown", "faulty_types"),
    Part::File(Work::Pages, "shown", "faulty_names"),
    Part::File(Work::Pages, "shown", "unended"),
    Part::Title("types"),
    Part::Measure("types"),
];

/// Goes through a part of a file.
fn write_case<R: Threads + Wait + Sync>(rt: &R, out: &mut Spelling, cases: Cases, part: &str) {
    let (line, rest) = part.split_once('\n').unwrap_or((part, ""));
    match cases {
        Cases::Commands => run_command(rt, out, part),
        Cases::Outputs => {
            out.put_all(&[part, "\n"]);
            let depth = out.number(line);
            put_answer(out, Question::Search(depth, Search::Outputs), rest);
            out.put("\n");
        }
        Cases::Branches => {
            out.put_all(&[part, "\n"]);
            put_answer(out, Question::Search(1, Search::Branches), part);
        }
        Cases::Visits => visit_text(out, line, rest),
        Cases::Keys => {
            let (pred, keys) = line.split_once(' ').unwrap_or((line, "0"));
            put_answer(out, Question::Kids(pred, keys), rest);
        }
        Cases::Calls => call_all(out, line, rest),
        Cases::Failing => run_failing(rt, out, line, rest),
        Cases::Large => run_large(rt, out, line, rest),
    }
}

/// The text of a file without blanks at its end, which a bundle keeps.
fn whole(cases: Cases, text: &str) -> &str {
    match cases {
        Cases::Calls => text,
        _ => text.trim_end(),
    }
}

/// The title of a file with parts. The paths are those of `searched.rt`.
fn title_of(cases: Cases, name: &str) -> &str {
    match cases {
        Cases::Branches => "branches at [[], [1], [2], [3], [1, 1]]",
        Cases::Calls => "calls",
        _ => name,
    }
}

/// Goes through the parts of a file, behind its title.
fn write_cases<R: Threads + Wait + Sync>(
    rt: &R,
    out: &mut Spelling,
    cases: Cases,
    name: &str,
    text: &str,
) {
    out.put_all(&["% ", title_of(cases, name), "\n"]);
    for one in whole(cases, text).split(DIVIDER) {
        write_case(rt, out, cases, one);
    }
}

/// Does what is done with the text of a file.
fn write_text<R: Threads + Wait + Sync>(
    rt: &R,
    out: &mut Spelling,
    work: Work,
    name: &str,
    text: &str,
) {
    match work {
        Work::Texts => run_texts(rt, out, name, text),
        Work::Lines => run_all_lines(rt, out, text),
        Work::Parts(cases) => write_cases(rt, out, cases, name, text),
        Work::Prefixes => tell_prefixes(rt, out, name, text),
        Work::Read(reading) => read_texts(out, reading, name, text),
        Work::Round => go_round(out, text),
        Work::Explained => explain_texts(out, name, text),
        Work::Shown(format) => show(out, format, name, text),
        Work::Pages => show_pages(out, name, text),
    }
}

/// Writes a part.
pub fn write_part<R: Threads + Wait + Sync + AllocGlobal + Files + Print>(
    rt: &R,
    out: &mut Spelling,
    part: Part,
) {
    match part {
        Part::Title(title) => out.put_all(&["% ", title, "\n"]),
        Part::File(work, folder, name) => {
            let text = text_of(rt, out, folder, name);
            write_text(rt, out, work, name, &text);
        }
        Part::Folder(task, folder) => go_through_folder(rt, out, task, folder),
        Part::Streams(folder) => run_commands(rt, out, folder),
        Part::Bundles => tell_bundles(rt, out),
        Part::Bytes => explain_bytes(out),
        Part::Measure(word) => measure(rt, out, word),
    }
}
