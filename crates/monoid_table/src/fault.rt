//! Why rows of numbers are no table.
ghost use Rattle.std.specs.Prelude.{◌≡◌};
ghost use Rattle.monoid_table.specs.Faults.{number_of};

/// Why rows of numbers are no table.
#[derive(Clone, Copy, Debug, PartialEq, Eq)]
pub enum LawFault {
    /// The order isn't 1 to `LARGEST_ORDER`, or there aren't order rows of order numbers below the
    /// order.
    Shape,
    /// 0 isn't the identity, or the products aren't commutative, or not associative.
    Law,
}

impl LawFault {
    /// 1 for `Shape`, 2 for `Law`.
    pub fn number(self) -> u8
        ensures { result ≡ number_of self }
    {
        match self {
            LawFault::Shape => 1,
            LawFault::Law => 2,
        }
    }
}
