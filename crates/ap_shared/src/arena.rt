//! Tables of terms, each behind its parts.
//!
//! A line costs what it says, however large its term is.

ghost use Rattle.std.specs.Prelude.{reverse};
ghost use Rattle.ap_shared.specs.Shared.{AreLines, lines_prop};

use crate::lines::{Entry, SharedLine};
use crate::sizes::sum_of;
use ap_defs::memory::Memory;
use std::alloc::Global;

/// Terms that share their parts: each stands behind its own.
///
/// Contracts see it as the list of its terms. A line that isn't there stands for `()`.
#[derive(Drop)]
pub struct SharedTerms {
    lines: Vec<SharedLine>,
    pub ghost formed: { AreLines (reverse lines.items) } by { lines_prop (reverse lines.items) },
}

impl SharedTerms {
    ghost use Rattle.std.specs.Prelude.{◌≡◌, ◌<◌, ◌≤◌, ◌++◌, [], ◌∷◌, length, IfOk, MatchOption, OnOk};
    ghost use Rattle.ap_defs.specs.Terms.{unit};
    ghost use Rattle.ap_bundle.specs.Tables.{expanded_size};
    ghost use Rattle.ap_shared.specs.Shared.{IsBehind, IsLine, entry_term, exact_size, shared_at};
    ghost use Rattle.ap_shared.specs.SharedViews.{shared_terms};

    /// No terms. It takes no memory.
    pub fn new(alloc: Global) -> SharedTerms
        ensures { shared_terms result ≡ [] }
    {
        SharedTerms {
            lines: Vec::new(alloc),
        }
    }

    /// How many lines there are.
    pub fn len(&self) -> usize
        ensures { result ≡ length (shared_terms self.now) }
    {
        self.lines.len()
    }

    /// A line that is there.
    fn line_at(&self, line: usize) -> &SharedLine
        requires { line < length (shared_terms self.now) }
        ensures { IsLine (shared_terms self.now) line result.now }
    {
        &self.lines[line]
    }

    /// How large the term of a line is in full, where that is below 2 ^ 64.
    pub fn size(&self, line: usize) -> Option<u64>
        ensures { result ≡ exact_size (expanded_size (shared_at (shared_terms self.now) line)) }
    {
        if line >= self.len() {
            return Some(1);
        }
        self.line_at(line).size
    }

    /// What a line says; none where it isn't there.
    pub fn entry(&self, line: usize) -> Option<&Entry>
        ensures term { MatchOption result (shared_at (shared_terms self.now) line ≡ unit)
            (λ e. shared_at (shared_terms self.now) line ≡ entry_term (shared_terms self.now) e.now) }
        ensures behind { MatchOption result (length (shared_terms self.now) ≤ line)
            (λ e. IsBehind line e.now) }
    {
        if line >= self.len() {
            return None;
        }
        Some(&self.line_at(line).entry)
    }

    /// How large the term of an entry is.
    fn entry_size(&self, entry: &Entry) -> Option<u64>
        ensures { result
            ≡ exact_size (expanded_size (entry_term (shared_terms self.now) entry.now)) }
    {
        match entry {
            Entry::Unit | Entry::Name(_) => Some(1),
            Entry::Pair(left, right) => {
                sum_of(Some(1), sum_of(self.size(*left), self.size(*right)))
            }
            Entry::App(_, part) => sum_of(Some(1), self.size(*part)),
            Entry::Abs(_, _, part) => sum_of(Some(1), self.size(*part)),
            Entry::Susp(swaps, _) => sum_of(Some(1), Some(swaps.items().len() as u64)),
        }
    }

    /// One line more. It answers its number.
    pub fn add(&mut self, entry: Entry) -> Result<usize, Memory>
        requires { IsBehind (length (shared_terms self.old)) entry }
        ensures terms { OnOk result (shared_terms self.new
            ≡ shared_terms self.old ++ entry_term (shared_terms self.old) entry ∷ []) }
        ensures line { IfOk result (λ i. i ≡ length (shared_terms self.old)) }
    {
        let line = self.len();
        let size = self.entry_size(&entry);
        self.lines.push(SharedLine { entry, size })?;
        Ok(line)
    }
}
