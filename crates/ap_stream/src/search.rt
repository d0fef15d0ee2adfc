//! A search that gives its outputs one at a time, without their paths.

ghost use Rattle.std.specs.Prelude.{◌≡◌, ℕ, ◌-◌, ◌<◌, ◌≤◌, ◌^◌, ◌∷◌, [], false, true, None, Some, IfOk, IfSome, OnOk, length, map, slice_get};
ghost use Rattle.ap_defs.specs.Answers.{out_of, outs_of, query_outs};
ghost use Rattle.ap_defs.specs.Goals.{NominalQuery, program_in};
ghost use Rattle.ap_defs.specs.Lines.{query_lines};
ghost use Rattle.ap_defs.specs.Types.{locals_of};
ghost use Rattle.ap_machine.specs.Asking.{answer_alone, answering_of};
ghost use Rattle.ap_machine.specs.Below.{AreClausesBelow};
ghost use Rattle.ap_stream.specs.Coming.{IsSearching, outs_coming, outs_coming_by, outs_to_come};
ghost use Rattle.ap_stream.specs.Shown.{shown_locals};
ghost use Rattle.ap_backchain.specs.Ends.{without_path};
ghost use Rattle.ap_backchain.specs.Problems.{HasQuery, clauses_in, program_of_problem, queries_in};
ghost use Rattle.ap_backchain.specs.Searches.{HasPoints};
ghost use Rattle.ap_paths.specs.Limits.{IsWanting, part};

use ap_backchain::points::ChoicePoint;
use ap_backchain::problem::{Problem, clauses_of_problem, query_of_problem};
use ap_backchain::run::{Paths, go_on, machine_again, machine_alone};
use ap_defs::goals::Local;
use ap_defs::memory::Memory;
use ap_defs::paths::Out;
use ap_index::predicate::Predicate;
use ap_machine::asked::Asked;
use ap_machine::machine::Machine;
use ap_paths::Limit;
use std::alloc::Global;

/// The search of a query on its way: the machine from which it goes on, the choices that have ways left,
/// and what is still wanted, which is nothing once it is over. Its memory is that of the branch where it
/// stands.
pub struct Search<'a> {
    clauses: &'a [Predicate<'a>],
    locals: &'a [Local],
    machine: Machine<'a>,
    points: Vec<ChoicePoint<'a>>,
    wanted: Limit,
}

// Written out, so that it is not written out at each exit of what owns a search.
impl Drop for Search<'_> {
    fn drop(self) {
        let Search {
            clauses: _,
            locals: _,
            machine: _machine,
            points: _points,
            wanted: _,
        } = self;
    }
}

// The deepest search whose memory is kept for the next one.
const MOST_KEPT: usize = 4_096;

/// Whether an answer is still wanted.
fn is_wanting(limit: Limit) -> bool
    ensures yes { result ≡ true → IsWanting limit 0 }
    ensures no { result ≡ false → limit ≡ Limit.First 0 }
{
    match limit {
        Limit::All => true,
        Limit::First(count) => count > 0,
    }
}

/// The output that a turn added, if it added one.
fn taken(outs: &mut Vec<Out>) -> Option<Out>
    requires { length outs.old.items ≤ 1 }
    ensures some { IfSome result (λ o. outs_of outs.old.items ≡ out_of o ∷ []) }
    ensures none { result ≡ None → outs_of outs.old.items ≡ [] }
    ensures taken { outs.new.items ≡ [] }
{
    outs.pop()
}

/// The next output from a machine, if there is one, and the search goes on behind it.
fn next_output<'a>(
    alloc: Global,
    clauses: &'a [Predicate<'a>],
    asked: &Asked<'_>,
    machine: &mut Machine<'a>,
    points: &mut Vec<ChoicePoint<'a>>,
    wanted: &mut Limit,
) -> Result<Option<Out>, Memory>
    requires clauses { AreClausesBelow (program_in clauses.now) }
    requires points { HasPoints machine.old points.old }
    ensures some { IfOk result (λ o. IfSome o (λ out.
        outs_coming (program_in clauses.now) (answering_of asked.now)
        wanted.old machine.old points.old
        ≡ out_of out ∷ outs_coming (program_in clauses.now) (answering_of asked.now)
        wanted.new machine.new points.new)) }
    ensures none { IfOk result (λ o. o ≡ None →
        outs_coming (program_in clauses.now) (answering_of asked.now)
        wanted.old machine.old points.old ≡ []) }
    ensures points { OnOk result (HasPoints machine.new points.new) }
{
    let mut outs = Vec::new(alloc);
    'searching: while is_wanting(*wanted) {
        if !go_on(
            alloc,
            clauses,
            asked,
            Paths::Left,
            machine,
            points,
            &mut outs,
            wanted,
        )? {
            *wanted = Limit::First(0);
            return Ok(taken(&mut outs));
        }
        if let Some(out) = taken(&mut outs) {
            return Ok(Some(out));
        }
    }
    Ok(None)
}

impl<'a> Search<'a> {
    /// The search of a query to a depth up to the last answer that is wanted.
    pub fn of(alloc: Global, p: &Problem<'a>, limit: Limit) -> Result<Search<'a>, Memory>
        requires { HasQuery p.now }
        ensures searching { IfOk result (λ s. IsSearching s) }
        ensures outs { IfOk result (λ s. (q : NominalQuery) →
            slice_get (queries_in p.now) (p.now.query - 1) ≡ Some q →
            outs_to_come s
            ≡ map without_path (part limit (query_outs (clauses_in p.now) p.now.depth q))) }
        ensures lines { IfOk result (λ s. (q : NominalQuery) (k : ℕ) →
            slice_get (queries_in p.now) (p.now.query - 1) ≡ Some q →
            query_lines (program_of_problem p.now) k (shown_locals q.locals)
            (outs_coming_by (answer_alone (shown_locals q.locals)) s)
            ≡ query_lines (program_of_problem p.now) k q.locals
            (map without_path (part limit (query_outs (clauses_in p.now) p.now.depth q)))) }
    {
        let clauses = clauses_of_problem(p);
        let query = query_of_problem(p);
        let machine = machine_alone(alloc, p.depth, query)?;
        Ok(Search {
            clauses,
            locals: query.locals.items(),
            machine,
            points: Vec::new(alloc),
            wanted: limit,
        })
    }

    /// The search of another query, as `of`, in the memory of this one.
    fn again(self, p: &Problem<'a>, limit: Limit) -> Result<Search<'a>, Memory>
        requires { HasQuery p.now }
        ensures searching { IfOk result (λ s. IsSearching s) }
        ensures outs { IfOk result (λ s. (q : NominalQuery) →
            slice_get (queries_in p.now) (p.now.query - 1) ≡ Some q →
            outs_to_come s
            ≡ map without_path (part limit (query_outs (clauses_in p.now) p.now.depth q))) }
        ensures lines { IfOk result (λ s. (q : NominalQuery) (k : ℕ) →
            slice_get (queries_in p.now) (p.now.query - 1) ≡ Some q →
            query_lines (program_of_problem p.now) k (shown_locals q.locals)
            (outs_coming_by (answer_alone (shown_locals q.locals)) s)
            ≡ query_lines (program_of_problem p.now) k q.locals
            (map without_path (part limit (query_outs (clauses_in p.now) p.now.depth q)))) }
    {
        let clauses = clauses_of_problem(p);
        let query = query_of_problem(p);
        let Search {
            clauses: _,
            locals: _,
            machine,
            mut points,
            wanted: _,
        } = self;
        points.clear();
        let machine = machine_again(machine, p.depth, query)?;
        Ok(Search {
            clauses,
            locals: query.locals.items(),
            machine,
            points,
            wanted: limit,
        })
    }

    /// The search of a query, as `of`, in the memory of an earlier one, if there is one.
    pub fn within(
        alloc: Global,
        earlier: Option<Search<'a>>,
        p: &Problem<'a>,
        limit: Limit,
    ) -> Result<Search<'a>, Memory>
        requires { HasQuery p.now }
        ensures searching { IfOk result (λ s. IsSearching s) }
        ensures outs { IfOk result (λ s. (q : NominalQuery) →
            slice_get (queries_in p.now) (p.now.query - 1) ≡ Some q →
            outs_to_come s
            ≡ map without_path (part limit (query_outs (clauses_in p.now) p.now.depth q))) }
        ensures lines { IfOk result (λ s. (q : NominalQuery) (k : ℕ) →
            slice_get (queries_in p.now) (p.now.query - 1) ≡ Some q →
            query_lines (program_of_problem p.now) k (shown_locals q.locals)
            (outs_coming_by (answer_alone (shown_locals q.locals)) s)
            ≡ query_lines (program_of_problem p.now) k q.locals
            (map without_path (part limit (query_outs (clauses_in p.now) p.now.depth q)))) }
    {
        match earlier {
            Some(search) => search.again(p, limit),
            None => Search::of(alloc, p, limit),
        }
    }

    /// The search, if its memory is little, to be lent to the next one.
    pub fn lent(self) -> Option<Search<'a>>
        ensures { IfSome result (λ s. s ≡ self.entry) }
    {
        if self.machine.path.capacity() > MOST_KEPT {
            None
        } else {
            Some(self)
        }
    }

    /// Whether it is known that nothing more is to come.
    pub(crate) fn is_over(&self) -> bool
        ensures { result ≡ true → outs_to_come self.now ≡ [] }
    {
        !is_wanting(self.wanted)
    }

    /// The next output with what is asked for in place of an answer of its own, in order. None says that there is no
    /// more.
    pub(crate) fn next_by(
        &mut self,
        alloc: Global,
        asked: &Asked<'_>,
    ) -> Result<Option<Out>, Memory>
        requires { IsSearching self.old }
        ensures searching { OnOk result (IsSearching self.new) }
        ensures some { IfOk result (λ o. IfSome o (λ out.
            outs_coming_by (answering_of asked.now) self.old
            ≡ out_of out ∷ outs_coming_by (answering_of asked.now) self.new)) }
        ensures none { IfOk result (λ o. o ≡ None →
            outs_coming_by (answering_of asked.now) self.old ≡ []) }
    {
        next_output(
            alloc,
            self.clauses,
            asked,
            &mut self.machine,
            &mut self.points,
            &mut self.wanted,
        )
    }

    /// The next output, in order. None says that there is no more.
    pub fn next(&mut self, alloc: Global) -> Result<Option<Out>, Memory>
        requires { IsSearching self.old }
        ensures searching { OnOk result (IsSearching self.new) }
        ensures some { IfOk result (λ o. IfSome o (λ out.
            outs_to_come self.old ≡ out_of out ∷ outs_to_come self.new)) }
        ensures none { IfOk result (λ o. o ≡ None → outs_to_come self.old ≡ []) }
    {
        let asked = Asked::of(alloc, self.locals)?;
        next_output(
            alloc,
            self.clauses,
            &asked,
            &mut self.machine,
            &mut self.points,
            &mut self.wanted,
        )
    }
}
