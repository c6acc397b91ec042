//! How many elements one quotient has.
ghost use Rattle.std.specs.Prelude.{◌≡◌, IfOk};
ghost use Rattle.solve_command.specs.Series.{IsOrder, part_of};

use crate::laws::still_heaps_have_one_class;
use crate::still::are_still;
use crate::{Searches, SolveBounds, certificate_by};
use allocation::Memory;
use octal_code::Code;
use requests::{Aim, DEFAULT_ROUNDS, PartsBounds};
use std::alloc::Global;

/// How far the search for the quotient of the heaps 1 to `last` goes.
fn part_of(bounds: PartsBounds, last: u32) -> SolveBounds
    ensures { result ≡ part_of bounds last }
{
    SolveBounds {
        limit: bounds.limit,
        rounds: DEFAULT_ROUNDS,
        order: bounds.order,
        aim: Aim::Part { last },
        tells_why: false,
    }
}

/// How many elements the quotient of the heaps 1 to `last` has, if it is found.
pub(crate) fn order_of<S: Searches>(
    by: &S,
    alloc: Global,
    code: &Code,
    last: u32,
    bounds: PartsBounds,
) -> Result<Option<u16>, Memory>
    ensures { IfOk result (IsOrder S.has_asked code.now bounds last) }
{
    still_heaps_have_one_class();
    if are_still(code, last) {
        return Ok(Some(1));
    }
    match certificate_by(by, alloc, code, part_of(bounds, last))? {
        Some(certified) => Ok(Some(certified.cert().order())),
        None => Ok(None),
    }
}
