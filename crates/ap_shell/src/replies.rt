//! What is answered to a line.

use crate::answers::Answer;
use crate::telling::Told;

/// What is answered to a line.
#[derive(Drop)]
pub enum Reply {
    /// The answer to the session's last query.
    Asked(Answer),
    /// Its answers with their derivations.
    Proved(Answer),
    /// How often each clause is used in the derivations of its answers.
    Counted(Answer),
    /// What was found of it as a property.
    Examined(Answer),
    /// What a command tells.
    Told(Told),
    /// The session's files are to be loaded.
    Load,
    /// The session ends.
    Quit,
}

/// What a step takes of a line, and what is answered.
#[derive(Drop)]
pub struct Step {
    /// how many bytes of the line were taken; the others are for the next step
    pub used: usize,
    /// whether lines before it that ended no query were dropped
    pub dropped: bool,
    /// what is answered
    pub reply: Reply,
}

impl Step {
    /// Whether a query was searched.
    pub fn is_search(&self) -> bool {
        !matches!(self.reply, Reply::Told(_) | Reply::Load | Reply::Quit)
    }
}
