//! Command lines, each on one text; and files in which each command line has an input of its own.

use crate::call::{answer_line, answer_to, answer_unread, words_in};
use crate::spelling::Spelling;
use std::sync::Wait;
use std::thread::Threads;

/// A text with two answers.
const TEXT: &str = "nat : type. z : nat. s : nat -> nat. pred p(nat). p(z). p(s(z)). ?- p(X).";

/// How often a word is repeated.
const OFTEN: u32 = 9999;

/// Words that are repeated.
const REPEATED: [&str; 3] = ["--depth=5", "--depth", "5"];

/// Tells what the top call writes for words, with the status, and the status where the first read fails.
fn run_words<R: Threads + Wait + Sync>(rt: &R, out: &mut Spelling, words: &[String]) {
    let failed = answer_unread(rt, out, words, TEXT.as_bytes());
    let all = answer_to(rt, out, words, TEXT.as_bytes());
    out.put_bytes(&all.bytes);
    out.put("% status ");
    out.put_number(all.status as u64, ", where a read fails ");
    out.put_number(failed.status as u64, "\n");
}

/// Runs command lines, one in each line.
fn run_lines<R: Threads + Wait + Sync>(rt: &R, out: &mut Spelling, all: &str) {
    for line in all.lines() {
        out.put_all(&[line, "\n"]);
        match words_in(out.alloc(), line) {
            Ok(words) => run_words(rt, out, &words),
            Err(_) => out.lose(),
        }
    }
}

/// Tells what the top call writes for `run` and so many times a word, with the status, where the first read fails.
fn run_often<R: Threads + Wait + Sync>(rt: &R, out: &mut Spelling, word: &str) {
    let mut line = Spelling::new(out.alloc());
    line.put("run");
    for _ in 0..OFTEN {
        line.put_all(&[" ", word]);
    }
    out.put("run and ");
    out.put_number(OFTEN as u64, " times ");
    out.put_all(&[word, "\n"]);
    let line = out.taken(line);
    match words_in(out.alloc(), &line) {
        Ok(words) => answer_unread(rt, out, &words, TEXT.as_bytes()).tell(out),
        Err(_) => out.lose(),
    }
}

/// Runs the command lines of a file, and some with very many words.
pub fn run_all_lines<R: Threads + Wait + Sync>(rt: &R, out: &mut Spelling, all: &str) {
    out.put("% words\n");
    run_lines(rt, out, all);
    for word in REPEATED {
        run_often(rt, out, word);
    }
}

/// Tells what the top call writes for the command line in the first line of a part, with the status. What stands behind
/// that line is the input, a text or a bundle; where nothing does it is empty.
pub fn run_command<R: Threads + Wait + Sync>(rt: &R, out: &mut Spelling, part: &str) {
    let (line, input) = match part.split_once('\n') {
        Some((line, text)) => (line, out.joined(&[text, "\n"])),
        None => (part, String::new(out.alloc())),
    };
    out.put_all(&[line, "\n"]);
    answer_line(rt, out, line, input.as_bytes()).tell(out);
}
