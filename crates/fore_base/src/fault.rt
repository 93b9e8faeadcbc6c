// Faults of programs, and their numbers.
ghost use Rattle.std.specs.Prelude.{◌≡◌};
ghost use Rattle.fore_base.specs.Faults.{number_of};

/// What a program can do wrong, in the order of the numbers that reports print.
#[derive(Clone, Copy, PartialEq, Eq, Debug)]
pub enum Fault {
    /// An arrow is followed from a null pointer (ISO/IEC 9899:2011, 6.5.3.2).
    NullDeref,
    /// An arrow is followed from a pointer that was never set (6.3.2.1, 6.5.3.2).
    UninitDeref,
    /// An arrow is followed from a pointer to an object whose lifetime has ended (6.2.4).
    DanglingDeref,
    /// `free` of a pointer that was never set (7.22.3.3).
    InvalidFree,
    /// `free` of a pointer to an object whose lifetime has ended (7.22.3.3).
    DoubleFree,
    /// Some allocated object can no longer be reached from a variable.
    Leak,
    /// A false `assert`, or a call that reports an error.
    Assertion,
    /// A test looks at an indeterminate value (6.2.4, 6.7.9).
    IndetTest,
}

impl Fault {
    /// The number of the fault, 1 to 8.
    pub fn number(&self) -> u8
        ensures { result ≡ number_of self.now }
    {
        match self {
            Fault::NullDeref => 1,
            Fault::UninitDeref => 2,
            Fault::DanglingDeref => 3,
            Fault::InvalidFree => 4,
            Fault::DoubleFree => 5,
            Fault::Leak => 6,
            Fault::Assertion => 7,
            Fault::IndetTest => 8,
        }
    }
}
