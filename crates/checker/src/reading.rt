//! The stage that reads the bytes.
ghost use Rattle.std.specs.Prelude.{◌*◌};
ghost use Rattle.certificate_text.specs.Reading.{certificate_at};
ghost use Rattle.check_machine.specs.Turns.{opened};
ghost use Rattle.checker.specs.Stages.{StandsAt, phase_of};

use crate::laws::Laws;
use crate::stage::Stage;
use allocation::SmallAllocator;
use answers::Refusal;
use certificate::{TextFault, read};

/// The one turn, which reads the whole text.
pub fn turn<A: SmallAllocator + Copy>(alloc: A, bytes: &[u8]) -> Stage<A>
    ensures { StandsAt (opened (certificate_at bytes.now)) (phase_of result) }
{
    certificate_text::reading_is_spelling();
    match read(alloc, bytes) {
        Ok(cert) => Stage::Laws(Laws::new(cert)),
        Err(TextFault::Text) => Stage::Ended(Err(Refusal::Text)),
        Err(TextFault::Memory) => Stage::Ended(Err(Refusal::Memory)),
    }
}
