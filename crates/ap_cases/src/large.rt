//! Large texts, which are made from templates of the file `large`, and what the top call writes for them by one worker and
//! by several.
//!
//! Lines of four dashes divide the templates. The first line of one has its title, the next a number and the words of the
//! command line. A line behind them that begins with `* ` stands for so many lines, without that beginning: in each, `@` is
//! its number, from 0, and `$` the next.

use crate::call::{answer_line, put_status};
use crate::spelling::Spelling;
use std::sync::Wait;
use std::thread::Threads;

/// The numbers of workers that are asked for, as they stand behind a command line.
const WORKERS: [&str; 2] = [" --workers 1", " --workers 4"];

/// Adds a line with its number and the next put in.
fn put_numbered(text: &mut Spelling, line: &str, number: u32) {
    for part in line.chars() {
        match part {
            '@' => text.put_number(number as u64, ""),
            '$' => text.put_number(number as u64 + 1, ""),
            _ => text.put_char(part),
        }
    }
    text.put("\n");
}

/// Adds the line so often, each with its number.
fn put_each(text: &mut Spelling, line: &str, count: u32) {
    for number in 0..count {
        put_numbered(text, line, number);
    }
}

/// The text of a template, in which some lines stand so often.
fn filled(out: &mut Spelling, count: u32, template: &str) -> String {
    let mut text = Spelling::new(out.alloc());
    for line in template.lines() {
        match line.strip_prefix("* ") {
            Some(part) => put_each(&mut text, part, count),
            None => text.put_all(&[line, "\n"]),
        }
    }
    out.taken(text)
}

/// The last line of a report.
fn last_line(report: &[u8]) -> &str {
    let all = str::from_utf8(report).unwrap_or("");
    all.lines().next_back().unwrap_or("")
}

/// Tells how many bytes the report has, its last line, and the status.
fn run_by<R: Threads + Wait + Sync>(rt: &R, out: &mut Spelling, line: &str, text: &str) {
    let answer = answer_line(rt, out, line, text.as_bytes());
    out.put_all(&[line, ": "]);
    out.put_number(answer.bytes.len() as u64, " bytes, ");
    out.put_all(&[last_line(&answer.bytes), "\n"]);
    put_status(out, answer.status);
}

/// Runs the text of a template, behind its title, by each number of workers.
pub fn run_large<R: Threads + Wait + Sync>(rt: &R, out: &mut Spelling, title: &str, rest: &str) {
    out.put_all(&[title, "\n"]);
    let (line, template) = rest.split_once('\n').unwrap_or((rest, ""));
    let (count, words) = line.split_once(' ').unwrap_or(("0", line));
    let count = out.number(count);
    let text = filled(out, count, template);
    for workers in &WORKERS {
        let line = out.joined(&[words, *workers]);
        run_by(rt, out, &line, &text);
    }
}
