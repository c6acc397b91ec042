//! The lines of a comparison.
ghost use Rattle.std.specs.Prelude.{◌≡◌, ◌∷◌, IfOk, decimal, map};
ghost use Rattle.std.specs.String.{string_bytes};
ghost use Rattle.certificate_text.specs.Spelling.{spaced};
ghost use Rattle.description_commands.specs.Lines.{difference_lines, gave_up_line, idempotents_lines, matchless_lines, order_lines, portion_lines, same_lines};

use crate::comparing::MOST_LISTS;
use answers::Certified;
use isomorphisms::{Difference, idempotents, portion_size};
use std::alloc::{AllocError, Global};

/// That two infinite quotients aren't compared, since one isn't presented.
pub(crate) const ENDLESS: &str = "not compared: both are infinite\n";

/// That two infinite quotients are isomorphic, since their presentations are alike.
pub(crate) const ALIKE: &str = "isomorphic\nby the same relations and portion\n";

/// That nothing is decided of two infinite quotients, since their presentations aren't alike.
pub(crate) const UNDECIDED: &str =
    "not decided: both are infinite, and their presentations are different\n";

/// That the first quotient is infinite, and the second finite.
pub(crate) const FIRST_ENDLESS: &str = "not isomorphic\nthe first alone is infinite\n";

/// That the second quotient is infinite, and the first finite.
pub(crate) const SECOND_ENDLESS: &str = "not isomorphic\nthe second alone is infinite\n";

/// That no certificate was made of a finite quotient that is presented.
pub(crate) const UNMADE: &str = "not compared: no certificate of a presentation\n";

/// An image behind a space.
fn image_word(alloc: Global, image: u16) -> Result<String, AllocError>
    ensures { IfOk result (λ t. string_bytes t ≡ 32 ∷ decimal image) }
{
    let text = format!(in alloc; " {image}")?;
    Ok(text)
}

/// Images, each behind a space.
fn image_words(alloc: Global, images: &[u16]) -> Result<String, AllocError>
    ensures { IfOk result (λ t. string_bytes t ≡ spaced (map decimal images.now)) }
{
    let mut text = String::new(alloc);
    for at in 0..images.len() {
        let word = image_word(alloc, images[at])?;
        text.push_str(word.as_str())?;
    }
    Ok(text)
}

/// That two quotients are isomorphic, and the image of each element in turn.
pub(crate) fn same_text(alloc: Global, images: &[u16]) -> Result<String, AllocError>
    ensures { IfOk result (λ t. string_bytes t ≡ same_lines images.now) }
{
    let words = image_words(alloc, images)?;
    let text = format!(in alloc; "isomorphic\nmap{words}\n")?;
    Ok(text)
}

fn order_text(alloc: Global, one: u16, other: u16) -> Result<String, AllocError>
    ensures { IfOk result (λ t. string_bytes t ≡ order_lines one other) }
{
    let text = format!(in alloc; "not isomorphic\norders {one} and {other}\n")?;
    Ok(text)
}

fn portion_text(alloc: Global, one: u64, other: u64) -> Result<String, AllocError>
    ensures { IfOk result (λ t. string_bytes t ≡ portion_lines one other) }
{
    let text = format!(in alloc; "not isomorphic\nportions of {one} and {other}\n")?;
    Ok(text)
}

fn idempotents_text(alloc: Global, one: u64, other: u64) -> Result<String, AllocError>
    ensures { IfOk result (λ t. string_bytes t ≡ idempotents_lines one other) }
{
    let text = format!(in alloc; "not isomorphic\nidempotents {one} and {other}\n")?;
    Ok(text)
}

/// That an element of the one quotient goes to none of the other.
fn matchless_text(alloc: Global, element: u16, one: &str, other: &str) -> Result<String, AllocError>
    ensures { IfOk result (λ t. string_bytes t ≡ matchless_lines element one.now other.now) }
{
    let text = format!(in alloc;
        "not isomorphic\nelement {element} of the {one} like none of the {other}\n"
    )?;
    Ok(text)
}

/// That two quotients aren't isomorphic, and what tells them apart.
pub(crate) fn difference_text(
    alloc: Global,
    a: &Certified,
    b: &Certified,
    difference: Difference,
) -> Result<String, AllocError>
    ensures { IfOk result (λ t. string_bytes t ≡ difference_lines a.now b.now difference) }
{
    match difference {
        Difference::Order => order_text(alloc, a.cert().order(), b.cert().order()),
        Difference::Portion => portion_text(alloc, portion_size(a), portion_size(b)),
        Difference::Idempotents => idempotents_text(alloc, idempotents(a), idempotents(b)),
        Difference::First(x) => matchless_text(alloc, x, "first", "second"),
        Difference::Second(y) => matchless_text(alloc, y, "second", "first"),
        Difference::Searched => String::from_str(alloc, "not isomorphic\neach map fails\n"),
    }
}

/// That there are more lists of images than are tried.
pub(crate) fn gave_up_text(alloc: Global) -> Result<String, AllocError>
    ensures { IfOk result (λ t. string_bytes t ≡ gave_up_line) }
{
    let most = MOST_LISTS;
    let text = format!(in alloc; "gave up after {most} lists of images\n")?;
    Ok(text)
}
