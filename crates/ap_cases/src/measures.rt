//! Measurements, which the scripts of `bench/` time: of each the word that asks for it.
//!
//! - `book`: a book is filled with a tree of two choices at each of 16 levels, and merged
//! - `lock`: a million turns of a shared book
//! - `tasks`: a thousand deques are made
//! - `types`: 20 equations whose answers double at each step are solved
//! - `steal1`, `steal2`, `steal4`: so many workers search a tree with a million leaves and some work at each
//! - `recursion`: a plain recursion goes through the same tree
//! - `derived`, `written`, `read`, `verified`: a derivation of a million nodes in one chain is made, and then written, read
//!   again and verified, each after the ones before

mod book;
mod deques;
mod derivations;
mod steal;
mod turns;
mod types;

use crate::spelling::Spelling;
use ap_defs::memory::Memory;
use derivations::{Stage, measured_derivation};
use std::alloc::Global;
use std::sync::Wait;
use std::thread::Threads;

/// How many of what are counted, by a word that asks for a measurement.
fn counted<R: Threads + Wait + Sync>(
    rt: &R,
    alloc: Global,
    word: &str,
) -> Option<(Result<usize, Memory>, &'static str)> {
    let counted = match word {
        "book" => (book::merged(alloc), " outputs"),
        "lock" => (turns::taken(rt, alloc), " turns"),
        "tasks" => (deques::made(alloc), " deques"),
        "types" => (types::solved(alloc), " shapes"),
        "steal1" => (steal::searched(rt, alloc, 1), " leaves"),
        "steal2" => (steal::searched(rt, alloc, 2), " leaves"),
        "steal4" => (steal::searched(rt, alloc, 4), " leaves"),
        "recursion" => (steal::gathered(alloc), " leaves"),
        "derived" => (measured_derivation(alloc, Stage::Derived), " derived"),
        "written" => (measured_derivation(alloc, Stage::Written), " bytes"),
        "read" => (measured_derivation(alloc, Stage::Read), " read"),
        "verified" => (measured_derivation(alloc, Stage::Verified), " verified"),
        _ => return None,
    };
    Some(counted)
}

/// Tells what is measured.
pub fn measure<R: Threads + Wait + Sync>(rt: &R, out: &mut Spelling, word: &str) {
    match counted(rt, out.alloc(), word) {
        Some((Ok(count), what)) => {
            out.put_number(count as u64, what);
            out.put("\n");
        }
        Some((Err(Memory), _)) => out.lose(),
        None => out.put("nothing is measured so\n"),
    }
}
