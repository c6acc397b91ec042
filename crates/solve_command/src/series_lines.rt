//! The lines of a series.
ghost use Rattle.std.specs.Prelude.{◌≡◌, IfOk, string_bytes};
ghost use Rattle.solve_command.specs.Series.{HasSeries, order_line};

use crate::Searches;
use crate::orders::order_of;
use allocation::Memory;
use command_results::Said;
use octal_code::Code;
use requests::PartsBounds;
use std::alloc::Global;

/// The line of the heaps 1 to `last`.
fn order_line(alloc: Global, last: u32, order: u16) -> Result<String, Memory>
    ensures { IfOk result (λ t. string_bytes t ≡ order_line last order) }
{
    let text = format!(in alloc; "{last} {order}\n")?;
    Ok(text)
}

/// The lines from heap 1 on, as far as quotients are found.
pub(crate) fn order_lines<S: Searches>(
    by: &S,
    alloc: Global,
    code: &Code,
    bounds: PartsBounds,
) -> Result<Said, Memory>
    ensures { IfOk result (λ s. HasSeries S.has_asked code.now bounds s.text.items s.succeeds) }
{
    let mut text = Vec::new(alloc);
    let mut last: u32 = 0;
    'heaps: while last < bounds.heaps {
        match order_of(by, alloc, code, last + 1, bounds)? {
            Some(order) => {
                let line = order_line(alloc, last + 1, order)?;
                text.extend_from_slice(line.as_bytes())?;
                last += 1;
            }
            None => {
                return Ok(Said {
                    text,
                    succeeds: last > 0,
                });
            }
        }
    }
    Ok(Said {
        text,
        succeeds: last > 0,
    })
}
