//! What stands behind a step's word and its client.
ghost use Rattle.std.specs.Prelude.{◌≡◌, ◌≢◌, ◌<◌, ◌^◌, ℕ, List, Err, IfOk, MatchOption, decimal};
ghost use Rattle.desk.specs.Steps.{«Step» as StepSpelled, IsFileName, IsJob, IsPosition, SpellsPosition, SpellsTail, client_of, spaced, word_of};
ghost use Rattle.desk.specs.Views.{step_of};

use crate::fault::LineFault;
use crate::line::cut;
use crate::step::{LARGEST_JOB, Step};
use allocation::SmallAllocator;
use positions::{Position, PositionFault};
use requests::number_between;

/// The job of this number.
fn job_of(text: &str) -> Option<u8>
    ensures { MatchOption result ((n : ℕ) → IsJob n → text.now ≢ decimal n)
        (λ n. IsJob n × (text.now ≡ decimal n)) }
{
    match number_between(1, LARGEST_JOB as u64, text) {
        Some(number) => Some(number as u8),
        None => None,
    }
}

/// A file and a limit.
fn file_and_limit(tail: &str) -> Option<(&str, u32)>
    ensures { MatchOption result ((file : List ℕ) (limit : ℕ) → IsFileName file → limit < 2 ^ 32
        → tail.now ≢ spaced file (decimal limit))
        (λ parts. IsFileName parts.0.now × (tail.now ≡ spaced parts.0.now (decimal parts.1))) }
{
    let (file, limit) = cut(tail)?;
    if file.is_empty() {
        return None;
    }
    let limit = number_between(0, u32::MAX as u64, limit)?;
    Some((file, limit as u32))
}

/// A job and units.
fn job_and_units(tail: &str) -> Option<(u8, u64)>
    ensures { MatchOption result ((job units : ℕ) → IsJob job → units < 2 ^ 64
        → tail.now ≢ spaced (decimal job) (decimal units))
        (λ parts. IsJob parts.0 × (tail.now ≡ spaced (decimal parts.0) (decimal parts.1))) }
{
    let (job, units) = cut(tail)?;
    let job = job_of(job)?;
    let units = number_between(0, u64::MAX, units)?;
    Some((job, units))
}

/// The position of the text.
fn position_of<A: SmallAllocator + Copy>(alloc: A, text: &str) -> Result<Position<A>, LineFault>
    ensures position { IfOk result (IsPosition text.now) }
    ensures other { result ≡ Err LineFault.NotAStep → (position : List ℕ)
        → IsPosition text.now position → ⊥ }
{
    match Position::read(alloc, text.as_bytes()) {
        Ok(position) => Ok(position),
        Err(PositionFault::Memory) => Err(LineFault::Memory),
        Err(PositionFault::Text | PositionFault::TooMany | PositionFault::TooLarge) => {
            Err(LineFault::NotAStep)
        }
    }
}

/// A job and a position.
fn job_and_position<A: SmallAllocator + Copy>(
    alloc: A,
    tail: &str,
) -> Result<(u8, Position<A>), LineFault>
    ensures spelled { IfOk result (λ parts. SpellsPosition tail.now parts.0 parts.1) }
    ensures other { result ≡ Err LineFault.NotAStep → (job : ℕ) (position : List ℕ)
        → SpellsPosition tail.now job position → ⊥ }
{
    let Some((job, text)) = cut(tail) else {
        return Err(LineFault::NotAStep);
    };
    let Some(job) = job_of(job) else {
        return Err(LineFault::NotAStep);
    };
    let position = position_of(alloc, text)?;
    Ok((job, position))
}

/// The step of the client that this word and what stands behind it spell.
pub fn step_behind<'a, A: SmallAllocator + Copy>(
    alloc: A,
    word: &str,
    client: u8,
    tail: &'a str,
) -> Result<Step<'a, A>, LineFault>
    ensures word { IfOk result (λ step. word_of (step_of step) ≡ word.now) }
    ensures client { IfOk result (λ step. client_of (step_of step) ≡ client) }
    ensures tail { IfOk result (λ step. SpellsTail tail.now (step_of step)) }
    ensures other { result ≡ Err LineFault.NotAStep → (step : StepSpelled) → word_of step ≡ word.now
        → SpellsTail tail.now step → ⊥ }
{
    match word {
        "open" => match file_and_limit(tail) {
            Some((file, limit)) => Ok(Step::Open {
                client,
                file,
                limit,
            }),
            None => Err(LineFault::NotAStep),
        },
        "work" => match job_and_units(tail) {
            Some((job, units)) => Ok(Step::Work { client, job, units }),
            None => Err(LineFault::NotAStep),
        },
        "drop" => match job_of(tail) {
            Some(job) => Ok(Step::Drop { client, job }),
            None => Err(LineFault::NotAStep),
        },
        "ask" => {
            let (job, position) = job_and_position(alloc, tail)?;
            Ok(Step::Ask {
                client,
                job,
                position,
            })
        }
        "play" => {
            let (job, position) = job_and_position(alloc, tail)?;
            Ok(Step::Play {
                client,
                job,
                position,
            })
        }
        _ => Err(LineFault::NotAStep),
    }
}
