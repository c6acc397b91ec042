//! A whole script.
ghost use Rattle.std.specs.Prelude.{◌≡◌, ◌++◌, ◌∷◌, Err, IfOk, IfErr, MatchOption};
ghost use Rattle.desk.specs.Scripts.{AreSteps, BeginsOtherwise, BeginsWith, IsFaultOf};
ghost use Rattle.desk.specs.Steps.{Lacks};
ghost use Rattle.desk.specs.Views.{step_of, steps_of};

use crate::fault::{LineFault, ScriptFault};
use crate::line::line_step;
use crate::step::Step;
use allocation::SmallAllocator;

/// The bytes up to the first LF, and those behind it.
fn first_line(bytes: &[u8]) -> Option<(&[u8], &[u8])>
    ensures { MatchOption result (Lacks 10 bytes.now)
        (λ parts. (bytes.now ≡ parts.0.now ++ 10 ∷ parts.1.now) × Lacks 10 parts.0.now) }
{
    let end = bytes.iter().position(|b| *b == b'\n')?;
    Some((&bytes[..end], &bytes[end + 1..]))
}

/// The step of the first line, and the bytes behind it.
fn first_step<'a, A: SmallAllocator + Copy>(
    alloc: A,
    bytes: &'a [u8],
) -> Result<(Step<'a, A>, &'a [u8]), LineFault>
    ensures step { IfOk result (λ parts. BeginsWith bytes.now (step_of parts.0) parts.1.now) }
    ensures other { result ≡ Err LineFault.NotAStep → BeginsOtherwise bytes.now }
{
    let Some((line, rest)) = first_line(bytes) else {
        return Err(LineFault::NotAStep);
    };
    let step = line_step(alloc, line)?;
    Ok((step, rest))
}

/// Reads a script: the steps that its lines spell, or the number of the first line that isn't a
/// step. Nothing is done.
pub fn read_script<'a, A: SmallAllocator + Copy>(
    alloc: A,
    script: &'a [u8],
) -> Result<Vec<Step<'a, A>, A>, ScriptFault>
    ensures steps { IfOk result (λ steps. AreSteps script.now (steps_of steps.items)) }
    ensures other { IfErr result (IsFaultOf script.now) }
{
    let mut steps = Vec::new(alloc);
    let mut rest = script;
    while !rest.is_empty() {
        match first_step(alloc, rest) {
            Ok((step, behind)) => {
                steps.push(step)?;
                rest = behind;
            }
            Err(LineFault::NotAStep) => return Err(ScriptFault::NotAStep(steps.len() + 1)),
            Err(LineFault::Memory) => return Err(ScriptFault::Memory),
        }
    }
    Ok(steps)
}
