//! Whether a heap has an option.
ghost use Rattle.std.specs.Prelude.{◌+◌, ◌≤◌, ◌↔◌, Contains, IsTrue};
ghost use Rattle.heap_options.specs.Options.{options_of};

use crate::left::Left;
use octal_code::{Code, Leaving};

/// Whether a move may leave this of the heap n. No split or triple is tried but the one in
/// question.
pub fn is_option(code: &Code, n: u64, left: Left) -> bool
    ensures { IsTrue result ↔ Contains (options_of code.now n) left }
{
    match left {
        Left::Nothing => code.takes_all(n, n),
        Left::One(a) => code.leaves_one(n, n.saturating_sub(a)),
        Left::Two(a, b) => {
            if are_parts(n, a, b) {
                code.allows(n - b - a, Leaving::TwoHeaps)
            } else {
                false
            }
        }
        Left::Three(a, b, c) => {
            if are_three_parts(n, a, b, c) {
                code.allows(n - c - b - a, Leaving::ThreeHeaps)
            } else {
                false
            }
        }
    }
}

/// Whether a and b, the smaller first, are parts of what may stay of n.
fn are_parts(n: u64, a: u64, b: u64) -> bool
    ensures { IsTrue result ↔ ((1 ≤ a) × (a ≤ b) × (a + b ≤ n)) }
{
    a != 0 && a <= b && b <= n && a <= n - b
}

/// Whether a, b and c, which rise, are parts of what may stay of n.
fn are_three_parts(n: u64, a: u64, b: u64, c: u64) -> bool
    ensures { IsTrue result ↔ ((1 ≤ a) × (a ≤ b) × (b ≤ c) × (a + b + c ≤ n)) }
{
    a != 0 && a <= b && b <= c && c <= n && b <= n - c && a <= n - c - b
}
