//! What is written is read again.

ghost use Rattle.std.specs.Prelude.{List as list};
ghost use Rattle.ap_unparse.specs.Written.{Written, bytes_of, symbols_of};
ghost use Rattle.ap_unparse.specs.Writable.{Writes, ReadsAsSymbols};

/// The tokens of what is written are those that were written, where no word stands right behind another.
#[tactic(auto, using(crate::proofs::Lexing::written_is_lexed))]
pub fn tokens_are_read_again()
    ensures { (ws : list Written) → Writes ws → ReadsAsSymbols (bytes_of ws) (symbols_of ws) }
{}
