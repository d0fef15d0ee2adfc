//! Types with parts that are not known yet, in a table in which each has a number.
ghost use Rattle.std.specs.Prelude.{◌≡◌};

use std::alloc::{AllocError, Global};

/// What is known of a type.
#[derive(Clone, Copy, PartialEq, Eq)]
pub enum Shape {
    /// Nothing, or that it is a name type.
    Open,
    OpenName,
    /// It is the type with this number.
    Link(usize),
    Unit,
    /// The name type, or the data type, with this place among the words of types.
    Name(usize),
    Data(usize),
    Pair(usize, usize),
    List(usize),
    Abs(usize, usize),
}

/// Which parts of a type are meant.
#[derive(Clone, Copy)]
pub enum Parts {
    All,
    /// Those that are no binder's.
    Inner,
    /// Those of which each term of the type has a term as a part: no elements of lists.
    Needed,
}

/// The parts of a type that are looked at, at most.
const MOST_PARTS: usize = 10_000;

/// Types by their numbers. Where memory is wanting for one, that is lost, and the types are not whole.
#[derive(Drop)]
pub struct Types {
    shapes: Vec<Shape>,
    // what the equation that is being solved changed, and what is left of it
    trail: Vec<(usize, Shape)>,
    work: Vec<(usize, usize)>,
    whole: bool,
}

fn link_of(shapes: &[Shape], number: usize) -> Option<usize> {
    match shapes.get(number) {
        Some(Shape::Link(next)) => Some(*next),
        _ => None,
    }
}

fn set_shape(shapes: &mut Vec<Shape>, number: usize, shape: Shape) {
    if let Some(place) = shapes.get_mut(number) {
        *place = shape;
    }
}

/// Whether nothing is known of a type with this shape, or that it is a name type alone.
fn is_open(shape: Shape) -> bool {
    matches!(shape, Shape::Open | Shape::OpenName)
}

/// Whether a type of which nothing but this is known may be that of the shape.
fn may_become(open: Shape, shape: Shape) -> bool {
    matches!(open, Shape::Open) || is_open(shape) || matches!(shape, Shape::Name(_))
}

/// Whether a type with this shape is known whole.
fn is_whole(shape: Shape) -> bool {
    matches!(shape, Shape::Unit | Shape::Name(_) | Shape::Data(_))
}

/// What follows for the parts of two equal types.
fn parts_of(first: Shape, second: Shape) -> Step {
    match (first, second) {
        (Shape::List(one), Shape::List(other)) => Step::Parts(one, other),
        (Shape::Pair(one, two), Shape::Pair(other, last)) => {
            Step::TwoParts((one, other), (two, last))
        }
        (Shape::Abs(one, two), Shape::Abs(other, last)) => {
            Step::TwoParts((one, other), (two, last))
        }
        _ => Step::Differ,
    }
}

/// What follows from two equal types.
#[derive(Clone, Copy)]
enum Step {
    Same,
    Binds(usize, usize),
    Parts(usize, usize),
    TwoParts((usize, usize), (usize, usize)),
    Differ,
}

impl Types {
    /// No types yet.
    pub fn new(alloc: Global) -> Types {
        Types {
            shapes: Vec::new(alloc),
            trail: Vec::new(alloc),
            work: Vec::new(alloc),
            whole: true,
        }
    }

    /// Tells that memory was wanting for a type.
    pub fn lose(&mut self) {
        self.whole = false;
    }

    /// Whether no type was lost.
    pub fn is_whole(&self) -> bool {
        self.whole
    }

    /// Adds a type, and gives its number.
    pub fn add(&mut self, shape: Shape) -> usize {
        let number = self.shapes.len();
        if self.shapes.push(shape).is_err() {
            self.lose();
        }
        number
    }

    /// Adds so many types of a shape, and gives the number of the first.
    pub fn add_many(&mut self, count: usize, shape: Shape) -> usize {
        let number = self.shapes.len();
        for _ in 0..count {
            let _number = self.add(shape);
        }
        number
    }

    /// Gives a type a shape.
    pub fn set(&mut self, number: usize, shape: Shape) {
        set_shape(&mut self.shapes, number, shape);
    }

    /// The number of a type behind its links, which are made shorter.
    fn find(&mut self, number: usize) -> usize {
        let mut at = number;
        for _ in 0..self.shapes.len() {
            let Some(next) = link_of(self.shapes.as_slice(), at) else {
                return at;
            };
            if let Some(over) = link_of(self.shapes.as_slice(), next) {
                set_shape(&mut self.shapes, at, Shape::Link(over));
            }
            at = next;
        }
        at
    }

    /// Makes all links lead to the last type behind them.
    pub fn settle(&mut self) {
        for number in 0..self.shapes.len() {
            let end = self.find(number);
            if end != number {
                self.set(number, Shape::Link(end));
            }
        }
    }

    /// What is known of a type. It takes as many steps as it has links.
    pub fn shape(&self, number: usize) -> Shape {
        let mut at = number;
        for _ in 0..self.shapes.len() {
            match link_of(self.shapes.as_slice(), at) {
                Some(next) => at = next,
                None => break,
            }
        }
        self.shapes.get(at).copied().unwrap_or(Shape::Open)
    }

    fn step(&self, left: usize, right: usize) -> Step {
        if left == right {
            return Step::Same;
        }
        let first = self.shape(left);
        let second = self.shape(right);
        if first == Shape::Open && second == Shape::Open {
            // The later one leads to the earlier one, so that links stay short where one type meets many.
            Step::Binds(left.max(right), left.min(right))
        } else if is_open(first) && second != Shape::Open && may_become(first, second) {
            Step::Binds(left, right)
        } else if is_open(second) && may_become(second, first) {
            Step::Binds(right, left)
        } else if is_whole(first) && first == second {
            Step::Binds(left, right)
        } else {
            parts_of(first, second)
        }
    }

    fn bind(&mut self, number: usize, to: usize) {
        let old = self.shapes.get(number).copied().unwrap_or(Shape::Open);
        if self.trail.push((number, old)).is_err() {
            self.lose();
        }
        self.set(number, Shape::Link(to));
    }

    fn undo(&mut self) {
        for _ in 0..self.trail.len() {
            if let Some((number, shape)) = self.trail.pop() {
                self.set(number, shape);
            }
        }
    }

    /// Leaves it to be done that two types are made equal.
    fn wait(&mut self, left: usize, right: usize) {
        if self.work.push((left, right)).is_err() {
            self.lose();
        }
    }

    /// Makes two types equal, if they can be; otherwise all stays as it was. Types that contain themselves are
    /// let through.
    pub fn equate(&mut self, left: usize, right: usize) -> bool {
        self.trail.clear();
        self.work.clear();
        self.wait(left, right);
        let rounds = self.shapes.len().saturating_mul(2).saturating_add(64);
        for _ in 0..rounds {
            let Some((left, right)) = self.work.pop() else {
                return true;
            };
            if !self.equate_once(left, right) {
                self.undo();
                return false;
            }
        }
        true
    }

    /// Makes two types equal but for their parts, which are left to be done.
    fn equate_once(&mut self, left: usize, right: usize) -> bool {
        let left = self.find(left);
        let right = self.find(right);
        match self.step(left, right) {
            Step::Same => {}
            Step::Binds(number, to) => self.bind(number, to),
            Step::Parts(one, other) => {
                self.bind(left, right);
                self.wait(one, other);
            }
            Step::TwoParts(first, second) => {
                self.bind(left, right);
                self.wait(second.0, second.1);
                self.wait(first.0, first.1);
            }
            Step::Differ => return false,
        }
        true
    }

    /// Makes the name types of which nothing else is known the one with this place, where all links are settled.
    pub fn close_names(&mut self, word: usize) {
        let name = self.add(Shape::Name(word));
        for number in 0..name {
            if self.shape(number) == Shape::OpenName {
                let _fits = self.equate(number, name);
            }
        }
    }

    /// The numbers of a type and of its parts of a kind, from the outside in; of a very large type only a beginning.
    pub fn parts(
        &self,
        alloc: Global,
        number: usize,
        kind: Parts,
    ) -> Result<Vec<usize>, AllocError> {
        let mut parts = Vec::new(alloc);
        parts.extend_from_slice(&[number])?;
        for at in 0..MOST_PARTS {
            let Some(next) = parts.get(at).copied() else {
                break;
            };
            add_parts(&mut parts, self.shape(next), kind)?;
        }
        Ok(parts)
    }

    /// Whether a part of a type isn't known. Of a very large type only a beginning is seen.
    pub fn is_open(&self, alloc: Global, number: usize) -> Result<bool, AllocError> {
        let parts = self.parts(alloc, number, Parts::All)?;
        for part in &parts {
            if is_open(self.shape(*part)) {
                return Ok(true);
            }
        }
        Ok(false)
    }

    /// Whether a type is a part of itself, or very large.
    pub fn is_endless(&self, alloc: Global, number: usize) -> Result<bool, AllocError> {
        let parts = self.parts(alloc, number, Parts::All)?;
        Ok(parts.len() > MOST_PARTS)
    }
}

/// Adds the parts of a kind that a type with this shape has.
fn add_parts(parts: &mut Vec<usize>, shape: Shape, kind: Parts) -> Result<(), AllocError> {
    match (shape, kind) {
        (Shape::Pair(left, right), _) | (Shape::Abs(left, right), Parts::All) => {
            parts.extend_from_slice(&[left, right])
        }
        (Shape::Abs(_, body), _) => parts.extend_from_slice(&[body]),
        (Shape::List(element), Parts::All | Parts::Inner) => parts.extend_from_slice(&[element]),
        _ => Ok(()),
    }
}
