//! Totals of queries.

ghost use Rattle.std.specs.Prelude.{◌≡◌, ◌<◌, ◌^◌, [], length};
ghost use Rattle.ap_defs.specs.Answers.{out_of, outs_of};
ghost use Rattle.ap_totals.specs.Sums.{IsSumAtMost, HaveRoom, output_totals, sum_of_both, with_out};

use ap_defs::paths::Out;

/// How many answers, cuts and stuck branches queries have, and how many bytes their reports. A query has
/// at most 2 ^ 64 of each, and a program has fewer than 2 ^ 32 queries, so that the sums fit.
#[derive(Clone, Copy)]
pub struct Totals {
    /// How many answers there are.
    pub answers: u128,
    /// How many branches were cut.
    pub cut: u128,
    /// How many branches are stuck.
    pub stuck: u128,
    /// How many bytes the reports have.
    pub bytes: u128,
}

impl Totals {
    /// Those of no query.
    pub fn none() -> Totals
        ensures { result ≡ output_totals [] 0 }
    {
        Totals {
            answers: 0,
            cut: 0,
            stuck: 0,
            bytes: 0,
        }
    }

    /// Counts one more output.
    fn count(&mut self, out: &Out)
        requires { IsSumAtMost (2 ^ 64) self.old }
        ensures { self.new ≡ with_out self.old (out_of out.now) }
    {
        match out {
            Out::Found(_, _) => self.answers += 1,
            Out::Cut(_) => self.cut += 1,
            Out::Stuck(_) => self.stuck += 1,
        }
    }

    /// Those of outputs.
    fn of_outputs(outs: &[Out]) -> Totals
        ensures counts { result ≡ output_totals (outs_of outs.now) 0 }
        ensures few { IsSumAtMost (length outs.now) result }
    {
        let mut totals = Totals::none();
        for out in outs {
            totals.count(out);
        }
        totals
    }

    /// Those of a query with these outputs, whose report has so many bytes.
    pub fn of_query(outs: &[Out], bytes: usize) -> Totals
        ensures counts { result ≡ output_totals (outs_of outs.now) bytes }
        ensures few { IsSumAtMost (2 ^ 64) result }
    {
        let totals = Totals::of_outputs(outs);
        Totals {
            answers: totals.answers,
            cut: totals.cut,
            stuck: totals.stuck,
            bytes: bytes as u128,
        }
    }

    /// These and those of other queries, where the sums have room.
    pub fn with(self, more: Totals) -> Totals
        requires { HaveRoom self more }
        ensures { result ≡ sum_of_both self more }
    {
        Totals {
            answers: self.answers + more.answers,
            cut: self.cut + more.cut,
            stuck: self.stuck + more.stuck,
            bytes: self.bytes + more.bytes,
        }
    }
}
