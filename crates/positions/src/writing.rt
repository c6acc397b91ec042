//! The texts of positions.
ghost use Rattle.std.specs.Prelude.{◌≡◌, ◌++◌, IfOk, OnOk, decimal, string_bytes};
ghost use Rattle.positions.specs.Text.{position_text, IsPositionText};

use crate::position::Position;
use allocation::{Memory, SmallAllocator};
use itoa::Buffer;
use std::alloc::Allocator;
use std::string::String;

impl<A: SmallAllocator + Copy> Position<A> {
    /// The text of the position: its sizes, rising, joined by single spaces, or `0` where it has no
    /// heap.
    pub fn text(&self) -> Result<String<A>, Memory>
        ensures bytes { IfOk result (λ text. string_bytes text ≡ position_text self.now) }
        ensures reads { IfOk result (λ text. IsPositionText (string_bytes text) self.now) }
    {
        let mut text = String::new(self.allocator());
        let Some((first, others)) = self.heaps().split_first() else {
            text.push('0')?;
            return Ok(text);
        };
        push_number(&mut text, *first)?;
        for heap in others {
            text.push(' ')?;
            push_number(&mut text, *heap)?;
        }
        Ok(text)
    }
}

fn push_number<A: Allocator>(text: &mut String<A>, n: u64) -> Result<(), Memory>
    ensures { OnOk result (string_bytes text.new ≡ string_bytes text.old ++ decimal n) }
{
    let mut buffer = Buffer::new();
    text.push_str(buffer.format(n))?;
    Ok(())
}
