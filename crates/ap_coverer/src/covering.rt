//! What covers a ground proof.

ghost use Rattle.std.specs.Prelude.{◌≡◌, ◌≤◌, IfOk, true};
ghost use Rattle.ap_backchain.specs.Branches.{IsAnswering, IsBranchOf, path_of_branch};
ghost use Rattle.ap_backchain.specs.Problems.{HasQuery, program_of_problem};
ghost use Rattle.ap_bundle.specs.Bundles.{proved_of};
ghost use Rattle.ap_cover.specs.Ground.{is_ground};
ghost use Rattle.ap_coverer.specs.Coverer.{ChecksFor, CoversBy, CoversProof};
ghost use Rattle.ap_defs.specs.Derivations.{derivation_of, height, path};
ghost use Rattle.ap_program.specs.NameRestriction.{IsRestricted};

use crate::following::follow;
use crate::grounding::{Covering, covering_of};
use ap_backchain::branch::Branch;
use ap_backchain::problem::{Problem, query_of_problem};
use ap_cover::path::path_of;
use ap_defs::goals::Constructor;
use ap_defs::lists::List;
use ap_defs::memory::Memory;
use ap_defs::outcomes::Proved;
use ap_defs::paths::{Node, Path};
use ap_defs::terms::{Swap, Term, Var};
use ap_picks::picker_of;
use std::alloc::Global;

/// What covers a ground proof: the answer at its path, with swappings of its names and a ground term for each of its
/// variables, or the branch that is stuck at a beginning of the path.
#[derive(Drop)]
pub enum Covered {
    Answer {
        path: Path,
        swaps: List<Swap>,
        grounding: List<(Var, Term)>,
    },
    Stuck {
        path: Path,
    },
}

/// By what the answer at which a branch of the proof's path stands covers the proof.
fn covering_at<'a>(
    alloc: Global,
    p: &Problem<'a>,
    constructors: &[Constructor],
    branch: &Branch<'a>,
    proved: &Proved,
) -> Result<Covering, Memory>
    requires query { HasQuery p.now }
    requires restricted { IsRestricted (program_of_problem p.now) }
    requires constructors { constructors.now ≡ p.now.program.now.signature.constructors }
    requires of { IsBranchOf p.now branch.now }
    requires answer { IsAnswering branch.now }
    requires path { path_of_branch branch.now ≡ path (derivation_of proved.now.derivation) }
    requires checks { ChecksFor p.now (proved_of proved.now) }
    requires closed { is_ground (proved_of proved.now) ≡ true }
    requires within { height (derivation_of proved.now.derivation) ≤ p.now.depth }
    ensures { IfOk result (λ c. CoversBy p.now (proved_of proved.now) c) }
{
    let query = query_of_problem(p);
    let answer = branch.answer(alloc, p)?;
    let picker = picker_of(alloc, constructors)?;
    let terms = proved.answer.binds.items();
    let covering = covering_of(alloc, &picker, query.locals.items(), &answer, terms)?;
    Ok(covering)
}

/// What covers a ground proof of the problem's query that checks and is no higher than its depth: the answer at the
/// proof's path, or the branch that is stuck at a beginning of the path. The path is walked once. `Err` is want of
/// memory, or of numbers for names.
pub fn cover(alloc: Global, p: &Problem<'_>, proved: &Proved) -> Result<Covered, Memory>
    requires query { HasQuery p.now }
    requires checks { ChecksFor p.now (proved_of proved.now) }
    requires closed { is_ground (proved_of proved.now) ≡ true }
    requires within { height (derivation_of proved.now.derivation) ≤ p.now.depth }
    ensures { IfOk result (λ c. CoversProof p.now (proved_of proved.now) c) }
{
    let program = p.program.program();
    let path = path_of(alloc, &proved.derivation)?;
    let branch = follow(alloc, p, path.choices())?;
    match branch.node() {
        Node::Answer => {
            let constructors = program.signature.constructors.items();
            let Covering { swaps, grounding } = covering_at(
                alloc,
                p,
                constructors,
                &branch,
                proved,
            )?;
            Ok(Covered::Answer {
                path,
                swaps: List::of(swaps),
                grounding: List::of(grounding),
            })
        }
        Node::Stuck => {
            let end = branch.path().to_vec(alloc)?;
            Ok(Covered::Stuck {
                path: Path::of(end),
            })
        }
        Node::Choice(_, _) => unreachable!(),
        Node::Cut => unreachable!(),
        Node::Failed => unreachable!(),
    }
}
