//! Laws of the typing of texts.
ghost use Rattle.ap_typecheck.specs.Laws.{ProgramsAreTyped, ProgramsAreSmall, TypedProgramIsOne, TypeFaultIsOne, TypedProgramOrFault};

/// Each item of the program of a text is typed by its kinds, and the program isn't larger than the text.
pub fn programs_are_typed()
    ensures typed { ProgramsAreTyped }
    ensures small { ProgramsAreSmall }
{}

/// A text has one program or one first fault at most, and not both.
pub fn check_has_one_answer()
    ensures program { TypedProgramIsOne }
    ensures fault { TypeFaultIsOne }
    ensures either { TypedProgramOrFault }
{}
