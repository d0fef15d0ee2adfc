//! What the workers start with.

ghost use Rattle.std.specs.Prelude.{◌≡◌, ℕ, true, [], ◌∷◌, All, ◌<◌, ◌≤◌, map, reverse, vec_len, IfOk};
ghost use Rattle.atomic_table.specs.Seated.{TableId};
ghost use Rattle.ap_tools.specs.Planned.{IsNewSeat};
ghost use Rattle.ap_tools.specs.Hands.{IsFreshTools, AreFreshTools};

use ap_defs::memory::Memory;
use ap_tools::tools::Tools;
use ap_tools::{Owner, Placed, Seat, Shape, Thief, tasks};
use std::alloc::Global;
use std::collections::VecDeque;

/// A seat at the shared book, and a worker's tools.
#[derive(Drop)]
pub struct Job<W: Shape> {
    pub seat: Seat,
    pub tools: Tools<W>,
}

/// Tools with an empty hand and no thieves.
fn bare<W: Shape>(alloc: Global, number: u32, alone: bool, own: Owner<W>) -> Tools<W>
    ensures { (result.number ≡ number) × (result.alone ≡ alone) × (result.hand.items ≡ [])
        × (result.own ≡ own) }
{
    Tools {
        number,
        count: 0,
        narrow: 0,
        alone,
        own,
        others: Vec::new(alloc),
        at: 0,
        hand: VecDeque::new(alloc),
    }
}

/// Tools for one worker alone, with the empty path in its hand.
pub fn lone_tools<W: Shape>(alloc: Global) -> Result<Tools<W>, Memory>
    ensures { IfOk result (λ t. (t.alone ≡ true) × (t.hand.items ≡ [] ∷ [])) }
{
    let (own, thief) = tasks(alloc)?;
    drop(thief);
    let mut tools = bare(alloc, 0, true, own);
    tools.hand.push_back(Placed::root(alloc))?;
    Ok(tools)
}

/// Tools of a worker of this number, and a thief of its deque.
fn fresh_tools<W: Shape>(alloc: Global, number: u32) -> Result<(Tools<W>, Thief<W>), Memory>
    ensures { IfOk result (λ t. IsFreshTools number t.0) }
{
    let (own, thief) = tasks(alloc)?;
    let mut tools = bare(alloc, number, false, own);
    if number == 0 {
        tools.hand.push_back(Placed::root(alloc))?;
    }
    Ok((tools, thief))
}

/// Tools for each of the workers, of which the first has the empty path in its hand.
pub fn make_tools<W: Shape>(alloc: Global, workers: u32) -> Result<Vec<Tools<W>>, Memory>
    requires { workers ≤ 64 }
    ensures len { IfOk result (λ v. vec_len v ≡ workers) }
    ensures fresh { IfOk result (λ v. AreFreshTools 0 v.items) }
{
    let mut all = Vec::with_capacity(alloc, workers as usize)?;
    let mut thieves = Vec::with_capacity(alloc, workers as usize)?;
    for number in 0..workers {
        let (tools, thief) = fresh_tools(alloc, number)?;
        all.push(tools)?;
        thieves.push(thief)?;
    }
    give_all(alloc, all, thieves)
}

/// Parts of each thief for the other workers.
fn give_all<W: Shape>(
    alloc: Global,
    mut all: Vec<Tools<W>>,
    mut thieves: Vec<Thief<W>>,
) -> Result<Vec<Tools<W>>, Memory>
    requires { AreFreshTools 0 all.items }
    ensures len { IfOk result (λ v. vec_len v ≡ vec_len all) }
    ensures fresh { IfOk result (λ v. AreFreshTools 0 v.items) }
{
    while let Some(thief) = thieves.pop() {
        let number = thieves.len();
        all = give(alloc, all, thief, number)?;
    }
    Ok(all)
}

/// One more thief for one of the workers.
fn add_at<W: Shape>(all: &mut Vec<Tools<W>>, at: usize, thief: Thief<W>) -> Result<(), Memory>
    requires { at < vec_len all.old }
    ensures len { vec_len all.new ≡ vec_len all.old }
    ensures fresh { AreFreshTools 0 all.old.items → AreFreshTools 0 all.new.items }
{
    all[at].add(thief)
}

/// A part of the thief for each of the workers but this one, as far as there are parts.
fn give<W: Shape>(
    alloc: Global,
    mut all: Vec<Tools<W>>,
    mut thief: Thief<W>,
    number: usize,
) -> Result<Vec<Tools<W>>, Memory>
    requires { AreFreshTools 0 all.items }
    ensures len { IfOk result (λ v. vec_len v ≡ vec_len all) }
    ensures fresh { IfOk result (λ v. AreFreshTools 0 v.items) }
{
    for i in 0..all.len() {
        if i != number && thief.parts() > 1 {
            let part = thief.split(alloc)?;
            add_at(&mut all, i, part)?;
        }
    }
    Ok(all)
}

/// The jobs in the other order.
pub fn turned<W: Shape>(mut jobs: Vec<Job<W>>) -> Vec<Job<W>>
    ensures order { result.items ≡ reverse jobs.items }
    ensures len { vec_len result ≡ vec_len jobs }
    ensures new { (book : TableId) → All (λ j. IsNewSeat book j.seat) jobs.items →
        All (λ j. IsNewSeat book j.seat) result.items }
{
    jobs.reverse();
    jobs
}

/// A job for each seat, the last one first.
pub fn make_jobs<W: Shape>(
    alloc: Global,
    mut seats: Vec<Seat>,
    mut tools: Vec<Tools<W>>,
) -> Result<Vec<Job<W>>, Memory>
    requires { vec_len seats ≡ vec_len tools }
    ensures len { IfOk result (λ v. vec_len v ≡ vec_len seats) }
    ensures tools { IfOk result (λ v. map (λ j. j.tools) v.items ≡ reverse tools.items) }
    ensures new { (book : TableId) → All (λ s. IsNewSeat book s) seats.items →
        IfOk result (λ v. All (λ j. IsNewSeat book j.seat) v.items) }
{
    let mut jobs = Vec::with_capacity(alloc, seats.len())?;
    while let Some(seat) = seats.pop() {
        let Some(one) = tools.pop() else {
            unreachable!()
        };
        jobs.push(Job { seat, tools: one })?;
    }
    Ok(jobs)
}
