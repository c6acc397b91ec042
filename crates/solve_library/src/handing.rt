//! What a call hands over.
ghost use Rattle.solve_library.specs.Handed.{IsHandedOver};

use crate::causes::Untold;

/// There is no room for what would be told.
const NO_ROOM: u32 = 14;

/// A text that is told, and its status.
#[derive(Drop)]
pub(crate) struct Told {
    pub status: u32,
    pub text: Vec<u8>,
}

/// Tells how many bytes the text has, and puts them in front, where there is room for them; or answers
/// the number of why there is none.
pub(crate) fn hand_over(answer: Result<Told, Untold>, told: &mut [u8], count: &mut u64) -> u32
    ensures { IsHandedOver answer told.old told.new count.old count.new result }
{
    match answer {
        Ok(it) => {
            let length = it.text.len();
            *count = length as u64;
            if length > told.len() {
                return NO_ROOM;
            }
            told[..length].copy_from_slice(&it.text);
            it.status
        }
        Err(why) => why.number(),
    }
}
