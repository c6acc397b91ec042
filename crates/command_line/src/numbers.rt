//! The numbers that options take.
ghost use Rattle.std.specs.Prelude.{◌≡◌, ◌≤◌, ◌<◌, IfSome};
ghost use Rattle.std.specs.Prelude.{option_map};
ghost use Rattle.command_line.specs.Numbers.{IsWithin, bounds_of, name_of, number_in};
ghost use Rattle.command_line.specs.Numbers.{number_within};

use misere_theory::{LARGEST_FIRST_ORDER, LARGEST_ORDER, LARGEST_PART, LARGEST_SECOND_ORDER};
use requests::{
    DEFAULT_HEAPS, DEFAULT_LIMIT, DEFAULT_ORDER, DEFAULT_ROUNDS, DEFAULT_SERIES, FEWEST_HEAPS,
    LARGEST_LIMIT, LEAST_ORDER, MOST_HEAPS, MOST_ROUNDS, number_between,
};

/// A number that an option takes.
#[derive(Clone, Copy, Debug, PartialEq, Eq)]
pub enum Quantity {
    /// The most members that the closure of a check ever keeps.
    Limit,
    /// The most rounds of a search for a quotient.
    Rounds,
    /// The largest heap that the search looks at.
    Heaps,
    /// The most elements of a quotient that the search proposes.
    Order,
    /// The last heap of the part of a game of which a certificate speaks, and 0 for the whole game.
    Part,
    /// The most elements of a quotient of a deep search, or of one of a series.
    DeepOrder,
    /// The last heap of the part of a game that is searched for.
    Last,
    /// The most elements of a quotient of a part of a game.
    PartOrder,
    /// The most elements of the quotient of as many heaps as have so few.
    Furthest,
    /// The last heap of a series, or of the parts that a search for an infinite quotient looks at.
    SeriesLast,
}

/// The range of a number, its ends included, and what the number is where none is given.
#[derive(Clone, Copy, Debug, PartialEq, Eq)]
pub struct Bounds {
    pub least: u32,
    pub most: u32,
    pub default: u32,
}

impl Quantity {
    /// The range and the default.
    pub fn bounds(self) -> Bounds
        ensures { result ≡ bounds_of self }
    {
        let (first_order, order) = (LARGEST_FIRST_ORDER as u32, LARGEST_ORDER as u32);
        let (second_order, heaps) = (LARGEST_SECOND_ORDER as u32, LARGEST_PART as u32);
        let (least, most, default) = match self {
            Quantity::Limit => (1, LARGEST_LIMIT, DEFAULT_LIMIT),
            Quantity::Rounds => (1, MOST_ROUNDS, DEFAULT_ROUNDS),
            Quantity::Heaps => (FEWEST_HEAPS, MOST_HEAPS, DEFAULT_HEAPS),
            Quantity::Order => (LEAST_ORDER, first_order, DEFAULT_ORDER),
            Quantity::Part => (0, heaps, 0),
            Quantity::DeepOrder => (LEAST_ORDER, order, first_order),
            Quantity::Last => (1, heaps, heaps),
            Quantity::PartOrder | Quantity::Furthest => (LEAST_ORDER, order, second_order),
            Quantity::SeriesLast => (1, heaps, DEFAULT_SERIES),
        };
        Bounds {
            least,
            most,
            default,
        }
    }

    /// The name of the option. The heaps of a search, of a part and of a series have one name, and so
    /// have the orders; the command, and what else is given, says which one is meant.
    pub fn name(self) -> &'static str
        ensures { result.now ≡ name_of self }
    {
        match self {
            Quantity::Limit => "limit",
            Quantity::Rounds => "rounds",
            Quantity::Heaps | Quantity::Part | Quantity::SeriesLast => "heaps",
            Quantity::Order | Quantity::DeepOrder | Quantity::PartOrder => "order",
            Quantity::Last => "partial",
            Quantity::Furthest => "furthest",
        }
    }
}

/// The number that the text spells, where it lies between the bounds.
fn number_of(bounds: Bounds, text: &str) -> Option<u32>
    ensures number { result ≡ number_within bounds text.now }
    ensures between { IfSome result (λ n. (bounds.least ≤ n) × (n ≤ bounds.most)) }
{
    let number = number_between(bounds.least as u64, bounds.most as u64, text)?;
    Some(number as u32)
}

/// The number that was given, or the default.
pub(crate) fn number_given(quantity: Quantity, text: Option<&str>) -> Option<u32>
    ensures number { result ≡ number_in (bounds_of quantity) (option_map (λ t. t.now) text.entry) }
    ensures within { IfSome result (IsWithin quantity) }
{
    match text {
        Some(text) => number_of(quantity.bounds(), text),
        None => Some(quantity.bounds().default),
    }
}
