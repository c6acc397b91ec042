//! The series of a code.
ghost use Rattle.std.specs.Prelude.{◌↔◌, IfOk, IfErr, IsErrOf};
ghost use Rattle.solve_command.specs.Series.{IsSeries, IsSeriesBy};
ghost use Rattle.solve_command.specs.Solved.{IsNoCode, IsSolveCause};

use crate::series_lines::order_lines;
use crate::{Proposing, Searches};
use command_results::{Said, Stop};
use octal_code::Code;
use requests::PartsBounds;
use std::alloc::Global;

/// Searches for the quotients of the heaps 1 to n of the code that the text spells, for n = 1, 2, ..
/// Says how many elements each has, up to the last heap that is asked or the first quotient that
/// isn't found within the order. Each is that of an accepted certificate, or one, if no move is
/// possible. It ends well if it says one at least.
pub fn series(alloc: Global, text: &str, bounds: PartsBounds) -> Result<Said, Stop<'static>>
    ensures says { IfOk result (λ s. IsSeries text.now bounds s.text.items s.succeeds) }
    ensures stops { IfErr result (IsSolveCause text.now) }
    ensures not_a_code { IsErrOf result Stop.NotACode ↔ IsNoCode text.now }
{
    series_by(&Proposing, alloc, text, bounds)
}

/// The same by any search: that a quotient isn't found is said only after a search for it.
pub fn series_by<S: Searches>(
    by: &S,
    alloc: Global,
    text: &str,
    bounds: PartsBounds,
) -> Result<Said, Stop<'static>>
    ensures says { IfOk result (λ s. IsSeriesBy S.has_asked text.now bounds s.text.items s.succeeds) }
    ensures stops { IfErr result (IsSolveCause text.now) }
    ensures not_a_code { IsErrOf result Stop.NotACode ↔ IsNoCode text.now }
{
    let Ok(code) = Code::read(text.as_bytes()) else {
        return Err(Stop::NotACode);
    };
    let said = order_lines(by, alloc, &code, bounds)?;
    Ok(said)
}
