// How a call ended.
ghost use Rattle.std.specs.Prelude.{◌≡◌};
ghost use Rattle.ap_report.specs.Status.{code_of};

/// How a call of the interpreter ended.
#[derive(Clone, Copy, PartialEq, Eq)]
pub enum Status {
    /// The report was written.
    Ok,
    /// The words of the command line are refused.
    Usage,
    /// The text has a fault in its tokens or its grammar.
    Syntax,
    /// An item of the text isn't well typed.
    Types,
    /// An item of the text breaks a rule on names.
    Names,
    /// A read failed.
    Read,
    /// A write failed. The sink has the first bytes of the report.
    Write,
    /// Memory was wanting. Nothing was written.
    Memory,
    /// A derivation of a bundle doesn't check.
    NotChecked,
    /// The input has more bytes than the limit.
    TooLarge,
    /// A proof of a bundle isn't ground, or is too high, so that it isn't to be covered.
    NotCovered,
    /// A query is no property.
    NotAProperty,
}

impl Status {
    /// The number that the program exits with.
    pub fn code(&self) -> u8
        ensures { result ≡ code_of self.now }
    {
        match self {
            Status::Ok => 0,
            Status::Usage => 1,
            Status::Syntax => 2,
            Status::Types => 3,
            Status::Names => 4,
            Status::Read => 5,
            Status::Write => 6,
            Status::Memory => 7,
            Status::NotChecked => 8,
            Status::TooLarge => 9,
            Status::NotCovered => 11,
            Status::NotAProperty => 12,
        }
    }
}
