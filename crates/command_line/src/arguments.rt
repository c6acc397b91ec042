//! The arguments that were given, by their names.
ghost use Rattle.std.specs.Prelude.{◌≡◌, None, Some, IfOk, IfErr, codes, map, option_map};
ghost use Rattle.clap.specs.Words.{all_of, first_of};
ghost use Rattle.command_line.specs.Numbers.{IsWithin, number_of};
ghost use Rattle.command_line.specs.Requests.{arguments_of, is_set, named_by};
ghost use Rattle.command_line.specs.Requests.{is_input};

use crate::faults::UsageFault;
use crate::numbers::{Quantity, number_given};
use clap::ArgMatches;

/// The value that was given under this name.
pub fn value<'a>(given: &ArgMatches<'a>, name: &str) -> Option<&'a str>
    ensures { option_map (λ t. t.now) result ≡ first_of name.now (arguments_of given.now) }
{
    given.get_str(name)
}

/// The value that has to be given under this name.
pub fn needed<'a>(given: &ArgMatches<'a>, name: &str) -> Result<&'a str, UsageFault>
    ensures value { IfOk result (λ t. first_of name.now (arguments_of given.now) ≡ Some t.now) }
    ensures none { IfErr result (λ fault. (first_of name.now (arguments_of given.now) ≡ None)
        × (fault ≡ UsageFault.Incomplete)) }
{
    value(given, name).ok_or(UsageFault::Incomplete)
}

/// The number that was given, or its default.
pub fn number(given: &ArgMatches<'_>, quantity: Quantity) -> Result<u32, UsageFault>
    ensures number { IfOk result (λ n. number_of quantity (arguments_of given.now) ≡ Some n) }
    ensures within { IfOk result (IsWithin quantity) }
    ensures none { IfErr result (λ fault. (number_of quantity (arguments_of given.now) ≡ None)
        × (fault ≡ UsageFault.Number quantity)) }
{
    let text = value(given, quantity.name());
    number_given(quantity, text).ok_or(UsageFault::Number(quantity))
}

/// Whether the flag of this name was given.
pub fn flag(given: &ArgMatches<'_>, name: &str) -> bool
    ensures { result ≡ is_set name.now (arguments_of given.now) }
{
    match value(given, name) {
        Some(text) => text == "true",
        None => false,
    }
}

/// The file that a word names, and none where there is no word or it is `-`, which stands for
/// standard input.
pub fn named_by<'a>(word: Option<&'a str>) -> Option<&'a str>
    ensures { option_map (λ t. t.now) result ≡ named_by (option_map (λ t. t.now) word.entry) }
{
    match word {
        Some("-") => None,
        word => word,
    }
}

/// The codes that were given.
pub fn codes_given<'a, 'b>(given: &'b ArgMatches<'a>) -> Option<&'b [&'a str]>
    ensures { option_map (λ s. map (λ c. c.now) s.now) result
        ≡ all_of (codes "code") (arguments_of given.now) }
{
    given.get_strs("code")
}

/// Whether the word stands for standard input.
pub fn is_input(word: Option<&str>) -> bool
    ensures { result ≡ is_input (option_map (λ t. t.now) word.entry) }
{
    match word {
        Some("-") => true,
        _ => false,
    }
}
