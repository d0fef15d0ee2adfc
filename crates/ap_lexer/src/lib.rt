//! The lexer: a text of bytes as tokens, or its first fault.
//!
//! `specs/Spelling.antt` says what a token is, `specs/Pieces.antt` which one begins a text,
//! `specs/Tokens.antt` what a text reads as, and `specs/Laws.antt` that the longest token is taken.
//! What prints text for this lexer finds in `proofs/Seams.antt` where tokens end, and in
//! `proofs/Scans.antt` how one follows another.
#![tactic(auto)]

mod cursor;
mod pieces;
mod scan;
mod token;

pub use cursor::Cursor;
pub use pieces::takes_longest;
pub use scan::lex;
pub use token::{LexError, Token, TokenKind};
