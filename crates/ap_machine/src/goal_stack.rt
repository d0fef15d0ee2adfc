//! Goals that wait, on a stack.

ghost use Rattle.std.specs.Prelude.{length, ◌≡◌, ◌≤◌};
ghost use Rattle.ap_machine.specs.GoalStacks.{AreLinked, frame_of};
ghost use Rattle.ap_machine.specs.GoalStackProps.{linked_prop};

use crate::frames::{Cell, Frame};
use ap_defs::memory::Memory;
use std::alloc::Global;

/// The frame that a cell has.
fn frame_of<'a>(cell: &Cell<'a>) -> Frame<'a>
    ensures { result ≡ frame_of cell.now }
{
    Frame {
        goal: cell.goal,
        base: cell.base as u64,
        depth: cell.depth,
    }
}

/// Goals that wait, one behind the other. Goals that waited earlier stay where they are, so that the
/// search can go back to them by the number of cells and the number of the first goal's.
#[derive(Drop)]
pub struct GoalStack<'a> {
    cells: Vec<Cell<'a>>,
    first: usize,
    ghost linked: { AreLinked 0 cells.items } by { linked_prop 0 cells.items },
    ghost within: { first ≤ length cells.items },
}

impl<'a> GoalStack<'a> {
    ghost use Rattle.std.specs.Prelude.{◌≡◌, ◌≤◌, ◌∷◌, [], IfSome, IfNone, List as list, OnOk, OnErr, length, take};
    ghost use Rattle.ap_search.specs.Continuations.{Waiting};
    ghost use Rattle.ap_machine.specs.GoalStacks.{IsLonger, waiting_at};
    ghost use Rattle.ap_machine.specs.Stacks.{cells_of, first_waiting, waiting_in};
    ghost use Rattle.ap_machine.specs.Views.{waiting_of};

    /// No goals. It takes no memory.
    pub fn new(alloc: Global) -> GoalStack<'a>
        ensures cells { cells_of result ≡ [] }
        ensures waiting { waiting_in result ≡ [] }
    {
        GoalStack {
            cells: Vec::new(alloc),
            first: 0,
        }
    }

    /// A goal waits in front of the others. Numbers of `2 ^ 32` and more are want of memory, as they are to the
    /// store, and so are as many cells.
    pub fn push(&mut self, frame: Frame<'a>) -> Result<(), Memory>
        ensures waiting { OnOk result (waiting_in self.new
            ≡ waiting_of frame.entry ∷ waiting_in self.old) }
        ensures longer { OnOk result (IsLonger (cells_of self.old) (cells_of self.new)) }
        ensures unchanged { OnErr result (waiting_in self.new ≡ waiting_in self.old) }
    {
        let Frame { goal, base, depth } = frame;
        if base > u32::MAX as u64 || self.first > u32::MAX as usize {
            return Err(Memory);
        }
        self.cells.push(Cell {
            goal,
            base: base as u32,
            depth,
            next: self.first as u32,
        })?;
        self.first = self.cells.len();
        Ok(())
    }

    /// The first goal, which stays.
    pub fn peek(&self) -> Option<Frame<'a>>
        ensures first { IfSome result (λ f. (others : list Waiting)
            × (waiting_in self.now ≡ waiting_of f ∷ others)) }
        ensures none { IfNone result (waiting_in self.now ≡ []) }
    {
        if self.first == 0 {
            None
        } else {
            Some(frame_of(&self.cells[self.first - 1]))
        }
    }

    /// The first goal, which waits no longer.
    pub fn pop(&mut self) -> Option<Frame<'a>>
        ensures first { IfSome result (λ f. waiting_in self.old
            ≡ waiting_of f ∷ waiting_in self.new) }
        ensures none { IfNone result ((waiting_in self.old ≡ []) × (waiting_in self.new ≡ [])) }
        ensures cells { cells_of self.new ≡ cells_of self.old }
    {
        if self.first == 0 {
            return None;
        }
        let cell = &self.cells[self.first - 1];
        let frame = frame_of(cell);
        self.first = cell.next as usize;
        Some(frame)
    }

    /// The number of cells.
    pub fn size(&self) -> usize
        ensures { result ≡ length (cells_of self.now) }
    {
        self.cells.len()
    }

    /// The number of the first goal's cell, or 0 where no goal waits.
    pub fn front(&self) -> usize
        ensures front { result ≡ first_waiting self.now }
        ensures within { result ≤ length (cells_of self.now) }
    {
        self.first
    }

    /// Goes back to so many cells, where the first goal had this number.
    pub fn back_to(&mut self, size: usize, first: usize)
        requires size { size ≤ length (cells_of self.old) }
        requires first { first ≤ size }
        ensures cells { cells_of self.new ≡ take size (cells_of self.old) }
        ensures waiting { waiting_in self.new ≡ waiting_at (cells_of self.new) first }
        ensures first { first_waiting self.new ≡ first }
    {
        self.cells.truncate(size);
        self.first = first;
    }
}
