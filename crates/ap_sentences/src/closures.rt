//! What holds of data types by their constructors.
ghost use Rattle.std.specs.Prelude.{◌≡◌};

use crate::declared::{Entry, Words};
use crate::types::{Parts, Shape, Types};
use ap_defs::memory::Memory;
use std::alloc::Global;

/// The rounds in which the answers for data types are found, at most.
const ROUNDS: usize = 100;

/// What is asked of a type.
#[derive(Clone, Copy)]
pub enum Question {
    /// Whether it has a term.
    HasTerm,
    /// Whether a term of it may have a free name of the name type with this place.
    HoldsName(usize),
}

impl Question {
    /// The answer where nothing speaks against it, or for it.
    fn default(self) -> bool {
        matches!(self, Question::HasTerm)
    }

    /// What the shape of a part says for a type, if it decides.
    fn decides(self, answers: &[bool], shape: Shape) -> Option<bool> {
        match (shape, self) {
            (Shape::Data(word), _) => {
                self.unless_default(answers.get(word).copied().unwrap_or(true))
            }
            (Shape::Name(word), Question::HoldsName(name)) if word == name => Some(true),
            _ => None,
        }
    }

    fn unless_default(self, answer: bool) -> Option<bool> {
        if answer == self.default() {
            None
        } else {
            Some(answer)
        }
    }

    fn parts(self) -> Parts {
        match self {
            Question::HasTerm => Parts::Needed,
            Question::HoldsName(_) => Parts::Inner,
        }
    }

    /// The answer for a type, given those for the data types.
    pub fn answer(
        self,
        alloc: Global,
        types: &Types,
        answers: &[bool],
        number: usize,
    ) -> Result<bool, Memory> {
        let parts = types.parts(alloc, number, self.parts())?;
        for part in &parts {
            if let Some(answer) = self.decides(answers, types.shape(*part)) {
                return Ok(answer);
            }
        }
        Ok(self.default())
    }

    /// The answer for the result of a constructor, as far as that has a say.
    fn by_constructor(
        self,
        alloc: Global,
        types: &Types,
        answers: &[bool],
        entry: Entry<'_>,
    ) -> Result<bool, Memory> {
        for part in 0..entry.count {
            let answer = self.answer(alloc, types, answers, entry.args.saturating_add(part))?;
            if answer != self.default() {
                return Ok(answer);
            }
        }
        Ok(self.default())
    }

    /// Answers yes for the data type of a constructor, if that makes it so. Tells whether this is new.
    fn add_constructor(
        self,
        alloc: Global,
        types: &Types,
        answers: &mut Vec<bool>,
        entry: Entry<'_>,
    ) -> Result<bool, Memory> {
        let Shape::Data(word) = types.shape(entry.result) else {
            return Ok(false);
        };
        if answers.get(word).copied().unwrap_or(true) {
            return Ok(false);
        }
        let answer = self.by_constructor(alloc, types, answers.as_slice(), entry)?;
        if let Some(place) = answers.get_mut(word) {
            *place = answer;
        }
        Ok(answer)
    }

    /// Answers yes for the data types that are so by one constructor more. Tells whether there are new ones.
    fn one_round(
        self,
        alloc: Global,
        words: &Words<'_>,
        types: &Types,
        answers: &mut Vec<bool>,
    ) -> Result<bool, Memory> {
        let mut changed = false;
        for entry in words.constructors.entries() {
            if self.add_constructor(alloc, types, answers, *entry)? {
                changed = true;
            }
        }
        Ok(changed)
    }

    fn all_rounds(
        self,
        alloc: Global,
        words: &Words<'_>,
        types: &Types,
        answers: &mut Vec<bool>,
    ) -> Result<(), Memory> {
        for _ in 0..ROUNDS {
            if !self.one_round(alloc, words, types, answers)? {
                return Ok(());
            }
        }
        Ok(())
    }

    /// The answers for the declared types, by their places.
    pub fn answers(
        self,
        alloc: Global,
        words: &Words<'_>,
        types: &Types,
    ) -> Result<Vec<bool>, Memory> {
        let mut answers = Vec::new(alloc);
        for entry in words.types.entries() {
            answers.push(entry.is_name && self.default())?;
        }
        self.all_rounds(alloc, words, types, &mut answers)?;
        Ok(answers)
    }
}
