//! Texts of whole games.
ghost use Rattle.std.specs.Prelude.{◌↔◌, ◌≡◌, ◌++◌, ℕ, List, codes, IfOk, IsTrue};
ghost use Rattle.given_quotients.specs.Told.{BeginsWhole};
ghost use Rattle.given_quotients.specs.Given.{JudgesWhole};

use crate::refusals::refusal_text;
use allocation::Memory;
use certificate_text::LONGEST_TEXT;
use std::alloc::Global;
use whole_checker::{WholeGame, judge_whole};

/// Whether the bytes begin with the first word of such texts.
fn has_first_word(bytes: &[u8]) -> bool
    ensures { IsTrue result ↔ ((rest : List ℕ) × (bytes.now ≡ codes "mqw " ++ rest)) }
{
    bytes.starts_with(b"mqw ")
}

/// Whether the bytes begin as texts of whole games do, and aren't too many.
pub fn begins_whole(bytes: &[u8]) -> bool
    ensures { IsTrue result ↔ BeginsWhole bytes.now }
{
    bytes.len() <= LONGEST_TEXT && has_first_word(bytes)
}

/// Checks the bytes of a whole game: the game, or else the text of a no.
pub fn judged_whole(alloc: Global, bytes: &[u8]) -> Result<Result<WholeGame, Vec<u8>>, Memory>
    ensures { IfOk result (JudgesWhole bytes.now) }
{
    let refusal = match judge_whole(alloc, bytes) {
        Ok(game) => return Ok(Ok(game)),
        Err(refusal) => refusal,
    };
    let text = refusal_text(alloc, refusal)?;
    Ok(Err(text.into_bytes()))
}
