//! The description of an infinite quotient or a presentation that was opened, and its code.
ghost use Rattle.std.specs.Prelude.{◌≡◌, ◌≢◌, ◌<◌, ◌≤◌, ◌⊎◌, ℕ, List, None, IfSome, IfOk, IfErr, length, take};
ghost use Rattle.std.specs.String.{string_bytes};
ghost use Rattle.infinite_queries.specs.Described.{IsOpenedCode, IsOpenedText, IsOpenedUntold, IsOutput, IsTextBy, IsTextFor, IsUndescribed, IsUntoldOf};
ghost use Rattle.octal_code.specs.Text.{code_text};
ghost use Rattle.opened.specs.Texts.{code_of};
ghost use Rattle.label_descriptions.specs.Described.{presented_text_for};
ghost use Rattle.player.specs.Asked.{IsUnshared};

use allocation::Memory;
use label_descriptions::{Output, presented_text};
use opened::{AcceptedText, OpenedInfinite};
use player::{DONE, MEMORY, NO_ROOM, NOT_IN_RANGE, NOT_OPEN};
use presented_checker::PresentedQuotient;
use std::alloc::Global;

/// There is no such text of what is opened: a whole game has no description, and only a presentation has words.
pub(crate) const NOT_DESCRIBED: u32 = 16;

/// The output of this number.
fn output_at(output: u32) -> Option<Output>
    ensures some { IfSome result (IsOutput output) }
    ensures none { result ≡ None → (output ≡ 2) ⊎ (4 ≤ output) }
{
    match output {
        0 => Some(Output::Plain),
        1 => Some(Output::Latex),
        3 => Some(Output::Json),
        _ => None,
    }
}

/// The text of a presentation; or the status.
fn presented(alloc: Global, quotient: &PresentedQuotient, output: Output) -> Result<Vec<u8>, u32>
    ensures told { IfOk result (λ t. t.items ≡ presented_text_for output quotient.now) }
    ensures no { IfErr result (λ s. s ≡ 9) }
{
    match presented_text(alloc, quotient, output) {
        Ok(text) => Ok(text.into_bytes()),
        Err(_) => Err(MEMORY),
    }
}

/// The text in this output; or the status.
fn text_of(alloc: Global, shown: &AcceptedText, output: Output) -> Result<Vec<u8>, u32>
    ensures told { IfOk result (λ t. IsTextBy output shown.now t.items) }
    ensures why { IfErr result (IsUndescribed shown.now) }
{
    match shown {
        AcceptedText::Whole(_) => Err(NOT_DESCRIBED),
        AcceptedText::Presented(quotient) => presented(alloc, quotient, output),
    }
}

/// The text that is asked for of the quotient; or the status.
fn text_in(alloc: Global, shown: &AcceptedText, output: u32) -> Result<Vec<u8>, u32>
    ensures told { IfOk result (λ t. IsTextFor output shown.now t.items) }
    ensures no { IfErr result (λ s. s ≢ 0 × s ≢ 14) }
    ensures why { IfErr result (IsUntoldOf output shown.now) }
{
    let Some(output) = output_at(output) else {
        return Err(NOT_IN_RANGE);
    };
    match text_of(alloc, shown, output) {
        Ok(text) => Ok(text),
        Err(status) => Err(status),
    }
}

/// Tells how many bytes there are, and puts them in front, where there is room for them.
pub fn hand_over(bytes: &[u8], told: &mut [u8], count: &mut u64) -> u32
    ensures put { result ≡ 0 → take count.new told.new ≡ bytes.now }
    ensures stays { result ≢ 0 → told.new ≡ told.old }
    ensures room { result ≢ 0 → (result ≡ 14) × (length told.old < count.new) }
    ensures counted { count.new ≡ length bytes.now }
{
    *count = bytes.len() as u64;
    if bytes.len() > told.len() {
        return NO_ROOM;
    }
    told[..bytes.len()].copy_from_slice(bytes);
    DONE
}

/// Describes what is opened: `output` is 0 for lines for readers, 1 for LaTeX and 3 for JSON. Tells the
/// text, and how many bytes it has; where there is no room for them, how many they are alone.
pub fn describe(
    alloc: Global,
    opened: &mut OpenedInfinite,
    output: u32,
    told: &mut [u8],
    count: &mut u64,
) -> u32
    ensures described { result ≡ 0
        → IsOpenedText opened.old.handle.value output (take count.new told.new) }
    ensures no { result ≢ 0 → result ≢ 14 → IsOpenedUntold opened.old.handle.value output result }
    ensures same { opened.new.handle.value ≡ opened.old.handle.value }
    ensures stays { result ≢ 0 → told.new ≡ told.old }
    ensures room { result ≡ 14 → length told.old < count.new }
    ensures counts { result ≡ 14 → (text : List ℕ)
        × IsOpenedText opened.old.handle.value output text × (count.new ≡ length text) }
    ensures untold { result ≢ 0 → result ≢ 14 → count.new ≡ count.old }
{
    let Some(quotient) = opened.take(alloc) else {
        return NOT_OPEN;
    };
    let text = text_in(alloc, quotient.shown(), output);
    opened.put(alloc, quotient);
    match text {
        Ok(text) => hand_over(&text, told, count),
        Err(status) => status,
    }
}

/// The code of the game, as a text.
fn code_in(alloc: Global, shown: &AcceptedText) -> Result<String, Memory>
    ensures { IfOk result (λ t. string_bytes t ≡ code_text (code_of shown.now)) }
{
    match shown {
        AcceptedText::Whole(game) => game.code().text(alloc),
        AcceptedText::Presented(quotient) => quotient.code().text(alloc),
    }
}

/// Tells the code of what is opened, such as 0.26, and how many bytes it has; where there is no room for them,
/// how many they are alone.
pub fn code(alloc: Global, opened: &mut OpenedInfinite, told: &mut [u8], count: &mut u64) -> u32
    ensures yes { result ≡ 0 → IsOpenedCode opened.old.handle.value (take count.new told.new) }
    ensures no { result ≢ 0 → result ≢ 14 → IsUnshared opened.old.handle.value result }
    ensures same { opened.new.handle.value ≡ opened.old.handle.value }
    ensures stays { result ≢ 0 → told.new ≡ told.old }
    ensures room { result ≡ 14 → length told.old < count.new }
    ensures counts { result ≡ 14 → (text : List ℕ)
        × IsOpenedCode opened.old.handle.value text × (count.new ≡ length text) }
    ensures untold { result ≢ 0 → result ≢ 14 → count.new ≡ count.old }
{
    let Some(quotient) = opened.take(alloc) else {
        return NOT_OPEN;
    };
    let text = code_in(alloc, quotient.shown());
    opened.put(alloc, quotient);
    match text {
        Ok(text) => hand_over(text.as_bytes(), told, count),
        Err(Memory) => MEMORY,
    }
}
