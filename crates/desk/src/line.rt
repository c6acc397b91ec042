//! One line of a script.
ghost use Rattle.std.specs.Prelude.{◌≡◌, ◌≢◌, ℕ, List, Err, IfOk, MatchOption, decimal};
ghost use Rattle.desk.specs.Steps.{«Step» as StepSpelled, IsClient, Lacks, Spells, spaced};
ghost use Rattle.desk.specs.Views.{step_of};

use crate::fault::LineFault;
use crate::step::{LARGEST_CLIENT, Step};
use crate::tail::step_behind;
use allocation::SmallAllocator;
use requests::number_between;

/// What stands in front of the first space, and behind it.
pub fn cut(text: &str) -> Option<(&str, &str)>
    ensures { MatchOption result ((front back : List ℕ) → text.now ≢ spaced front back)
        (λ parts. (text.now ≡ spaced parts.0.now parts.1.now) × Lacks 32 parts.0.now) }
{
    text.split_once(' ')
}

/// The client of this number.
fn client_of(text: &str) -> Option<u8>
    ensures { MatchOption result ((n : ℕ) → IsClient n → text.now ≢ decimal n)
        (λ n. IsClient n × (text.now ≡ decimal n)) }
{
    match number_between(1, LARGEST_CLIENT as u64, text) {
        Some(number) => Some(number as u8),
        None => None,
    }
}

/// The step that the line spells, without its LF.
pub fn line_step<'a, A: SmallAllocator + Copy>(
    alloc: A,
    line: &'a [u8],
) -> Result<Step<'a, A>, LineFault>
    ensures spelled { IfOk result (λ step. Spells line.now (step_of step)) }
    ensures other { result ≡ Err LineFault.NotAStep → (step : StepSpelled) → Spells line.now step
        → ⊥ }
{
    let Ok(text) = str::from_utf8(line) else {
        return Err(LineFault::NotAStep);
    };
    let Some((word, rest)) = cut(text) else {
        return Err(LineFault::NotAStep);
    };
    let Some((client, tail)) = cut(rest) else {
        return Err(LineFault::NotAStep);
    };
    let Some(client) = client_of(client) else {
        return Err(LineFault::NotAStep);
    };
    step_behind(alloc, word, client, tail)
}
