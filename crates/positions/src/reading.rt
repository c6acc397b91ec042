//! Positions out of texts.
ghost use Rattle.std.specs.Prelude.{◌≡◌, ◌↔◌, IfOk, IsTrue, codes};
ghost use Rattle.positions.specs.Text.{HasTooLarge, HasTooMany, IsNoPositionText, IsTextOf};

use crate::fault::PositionFault;
use crate::position::{INLINE, LARGEST_HEAP, MOST_SIZES, Position};
use crate::survey::survey_of;
use allocation::SmallAllocator;

impl<A: SmallAllocator + Copy> Position<A> {
    /// Reads a position: `0` alone for the one without heaps, or at most 64 sizes in any order,
    /// joined by single spaces, each from 1 to 10^18, decimal and without leading zeros. It takes
    /// no memory before it knows that the text is one of a position, and none for up to `INLINE`
    /// sizes.
    pub fn read(alloc: A, text: &[u8]) -> Result<Position<A>, PositionFault>
        ensures ok { IfOk result (IsTextOf text.now) }
        ensures text { (result ≡ Err PositionFault.Text) ↔ IsNoPositionText text.now }
        ensures too_many { (result ≡ Err PositionFault.TooMany) ↔ HasTooMany MOST_SIZES text.now }
        ensures too_large { (result ≡ Err PositionFault.TooLarge)
            ↔ HasTooLarge MOST_SIZES LARGEST_HEAP text.now }
        ensures memory { result ≡ Err PositionFault.Memory → HasTooMany INLINE text.now }
    {
        if is_zero(text) {
            return Ok(Position::new(alloc));
        }
        let Some(survey) = survey_of(text) else {
            return Err(PositionFault::Text);
        };
        if survey.count > MOST_SIZES {
            return Err(PositionFault::TooMany);
        }
        if survey.large {
            return Err(PositionFault::TooLarge);
        }
        let position = Position::of(alloc, &survey.sizes[..survey.count])?;
        Ok(position)
    }
}

/// Whether the text is that of the position without heaps.
fn is_zero(text: &[u8]) -> bool
    ensures { IsTrue result ↔ (text.now ≡ codes "0") }
{
    text == b"0".as_slice()
}
