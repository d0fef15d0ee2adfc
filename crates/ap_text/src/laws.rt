//! A law of texts.
ghost use Rattle.ap_text.specs.Laws.{ProgramIsOne, FaultIsOne, ProgramOrFault};

/// A text has one program or one first fault at most, and not both.
pub fn a_text_has_a_program_or_a_fault()
    ensures program { ProgramIsOne }
    ensures fault { FaultIsOne }
    ensures either { ProgramOrFault }
{}
