//! The tree of the tests, and how two visits of it wait for one another.

ghost use Rattle.std.specs.Prelude.{◌≡◌, ◌∷◌, [], IfOk};
ghost use Rattle.ap_defs.specs.Answers.{cut};
ghost use Rattle.ap_paths.specs.Runs.{outs_of_run, outs_of_runs};

use ap_defs::lists::List;
use ap_defs::memory::Memory;
use ap_defs::paths::{Out, Path};
use ap_io::Gate;
use ap_paths::{Run, Tree, Visit};
use std::alloc::Global;
use std::sync::atomic::AtomicBool;
use std::sync::atomic::Ordering::SeqCst;

const TURNS: u64 = 200_000_000;

/// Two that wait for one another, and note where one gave up.
#[derive(Drop)]
pub struct Meeting {
    first: AtomicBool,
    second: AtomicBool,
    gave_up: AtomicBool,
}

impl Meeting {
    /// Neither has come yet.
    pub fn new() -> Meeting {
        Meeting {
            first: AtomicBool::new(false),
            second: AtomicBool::new(false),
            gave_up: AtomicBool::new(false),
        }
    }

    /// Waits for the other one.
    pub fn meet(&self, is_first: bool) {
        let (mine, theirs) = if is_first {
            (&self.first, &self.second)
        } else {
            (&self.second, &self.first)
        };
        mine.store(true, SeqCst);
        for _ in 0..TURNS {
            if theirs.load(SeqCst) {
                return;
            }
        }
        self.gave_up.store(true, SeqCst);
    }

    /// Whether no one gave up.
    pub fn was_kept(&self) -> bool {
        !self.gave_up.load(SeqCst)
    }
}

/// Lets the first call pass, and holds each later one until a call of the other worker is inside.
#[derive(Drop)]
pub struct Hold {
    passed: AtomicBool,
    meeting: Meeting,
}

impl Hold {
    /// No call has passed yet.
    pub fn new() -> Hold {
        Hold {
            passed: AtomicBool::new(false),
            meeting: Meeting::new(),
        }
    }

    /// Whether no one gave up.
    pub fn was_kept(&self) -> bool {
        self.meeting.was_kept()
    }
}

impl Gate for Hold {
    fn enter(&self, worker: u32, _task: u64) {
        if self.passed.swap(true, SeqCst) {
            self.meeting.meet(worker == 0);
        }
    }

    fn may_hold(&self) -> bool {
        true
    }
}

/// Two choices at each path of fewer entries than the depth, and a cut at each end. The visits of [1]
/// and [2] wait for one another where they are to meet, and want memory where they are to fail.
#[derive(Drop)]
pub struct Pairs {
    pub depth: usize,
    pub meets: bool,
    pub fails: bool,
    pub meeting: Meeting,
}

impl Pairs {
    /// The tree of a depth, whose visits neither meet nor fail.
    pub fn of(depth: usize) -> Pairs {
        Pairs {
            depth,
            meets: false,
            fails: false,
            meeting: Meeting::new(),
        }
    }

    /// What the visits of [1] and [2] do beside.
    fn enter(&self, choice: u32) -> Result<(), Memory> {
        if self.meets {
            self.meeting.meet(choice == 1);
        }
        if self.fails && choice == 2 {
            return Err(Memory);
        }
        Ok(())
    }
}

fn copied(alloc: Global, path: &Path) -> Result<Run, Memory>
    ensures { IfOk result (λ r. outs_of_run r ≡ cut path.now ∷ []) }
{
    Ok(Run::One(Out::Cut(path.copy(alloc)?)))
}

/// What is cut off at a path.
pub fn cut_at(alloc: Global, path: &Path) -> Result<Vec<Run>, Memory>
    ensures { IfOk result (λ v. outs_of_runs v.items ≡ cut path.now ∷ []) }
{
    let mut runs = Vec::with_capacity(alloc, 1)?;
    runs.push(copied(alloc, path)?)?;
    Ok(runs)
}

/// Whether these are the cuts at [1] and [2].
pub fn are_both_cuts(runs: &[Run]) -> bool {
    match runs {
        [Run::One(Out::Cut(first)), Run::One(Out::Cut(second))] => {
            first.choices() == [1].as_slice() && second.choices() == [2].as_slice()
        }
        _ => false,
    }
}

impl Tree for Pairs {
    ghost use Rattle.ap_pairs.specs.Pairs.{pair_choices, pair_at, pair_plan};
    ghost use Rattle.ap_pairs.proofs.Laws.{pair_branches, pair_planned};

    ghost choices = { λ t. pair_choices t.depth };

    ghost at = { λ t. pair_at t.depth };

    ghost plan = { λ t most. pair_plan t.depth };

    fn width(&self, _alloc: Global, path: &Path) -> Result<Option<u32>, Memory> {
        if path.choices().len() < self.depth {
            Ok(Some(2))
        } else {
            Ok(None)
        }
    }

    fn outs(&self, alloc: Global, path: &Path) -> Result<Vec<Run>, Memory> {
        if path.choices().len() < self.depth {
            return Err(Memory);
        }
        cut_at(alloc, path)
    }

    fn visit(&self, alloc: Global, path: &Path, _most: Option<u64>) -> Result<Visit, Memory> {
        if let [k] = path.choices() {
            self.enter(*k)?;
        }
        if path.choices().len() < self.depth {
            return Ok(Visit::Kids(List::of(Vec::from_array(alloc, [1, 2])?)));
        }
        Ok(Visit::Outs(List::of(cut_at(alloc, path)?)))
    }

    ghost branches = { λ t. pair_branches t.depth };

    ghost planned = { λ t most. pair_planned t.depth };
}
