//! Why a search for an infinite quotient was given up.
ghost use Rattle.std.specs.Prelude.{◌≡◌, IfOk, string_bytes};
ghost use Rattle.solve_command.specs.Found.{reason_line};

use allocation::Memory;
use infinite_finder::Unfound;
use std::alloc::Global;

/// Why none was found, in a line.
pub(crate) fn reason_text(alloc: Global, why: Unfound) -> Result<String, Memory>
    ensures { IfOk result (λ t. string_bytes t ≡ reason_line why) }
{
    let text = match why {
        Unfound::Finite { heaps } => format!(in alloc;
            "gave up: each part to heap {heaps} seems to have a finite quotient\n"
        )?,
        Unfound::Shapes { heap } => format!(in alloc;
            "gave up: to heap {heap} no shape that was tried is right\n"
        )?,
        Unfound::Work { heap } => format!(in alloc;
            "gave up: to heap {heap} the work that is allowed was done\n"
        )?,
        Unfound::Refused => format!(in alloc;
            "gave up: what was found was refused by the check\n"
        )?,
    };
    Ok(text)
}
