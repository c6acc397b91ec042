//! Why a text is no code.
ghost use Rattle.std.specs.Prelude.{◌≡◌};
ghost use Rattle.octal_code.specs.Faults.{code_fault_number};

/// Why bytes are no code.
#[derive(Clone, Copy, Debug, PartialEq, Eq)]
pub enum CodeFault {
    /// The bytes are neither a code nor too long a one.
    NotACode,
    /// All is as in a code, but that 17 or more digits stand behind the point.
    TooLong,
}

impl CodeFault {
    /// The number under which the fault is printed.
    pub fn number(self) -> u8
        ensures { result ≡ code_fault_number self }
    {
        match self {
            CodeFault::NotACode => 1,
            CodeFault::TooLong => 2,
        }
    }
}
