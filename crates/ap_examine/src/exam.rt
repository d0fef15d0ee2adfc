//! What an exam says.

use ap_defs::outcomes::Answer;

/// How many answers of a hypothesis have a conclusion that is held, how many have one that is not settled, and how many
/// branches of the hypothesis were cut and are stuck.
#[derive(Clone, Copy)]
pub(crate) struct Tally {
    pub held: u64,
    pub unsettled: u64,
    pub cut: u64,
    pub stuck: u64,
}

/// A counterexample, with the number of the hypothesis's answer from 1 and its stated instance as an answer; or the
/// totals where there is none.
#[derive(Drop)]
pub(crate) enum Exam {
    Counter(u64, Answer),
    Clear(Tally),
}
