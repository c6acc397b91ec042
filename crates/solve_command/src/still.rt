//! Whether any of the first heaps has an option.
ghost use Rattle.std.specs.Prelude.{◌↔◌, IsTrue};
ghost use Rattle.solve_command.specs.Series.{AreStill, HasOption};

use heap_options::{options, options_are_exact};
use octal_code::Code;

/// Whether a move is possible in the heap.
fn has_option(code: &Code, heap: u64) -> bool
    ensures { IsTrue result ↔ HasOption code.now heap }
{
    options_are_exact();
    options(code, heap).next().is_some()
}

/// Whether no move is possible in the heaps 1 to `last`.
pub(crate) fn are_still(code: &Code, last: u32) -> bool
    ensures { IsTrue result ↔ AreStill code.now last }
{
    for heap in 1..u64::from(last) + 1 {
        if has_option(code, heap) {
            return false;
        }
    }
    true
}
