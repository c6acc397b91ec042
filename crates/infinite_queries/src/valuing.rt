//! The element of a position by a presentation that was opened, as a word.
ghost use Rattle.std.specs.Prelude.{◌≡◌, ◌≢◌, ◌<◌, ℕ, List, All, IfOk, IfErr, OnOk, IsPermutation, length, take};
ghost use Rattle.std.specs.String.{string_bytes};
ghost use Rattle.infinite_queries.specs.Valued.{IsOpenedUnvalued, IsOpenedValue, IsUnspelled, IsUnvalued, IsValueIn, IsWordOf};
ghost use Rattle.positions.specs.Positions.{IsSize};
ghost use Rattle.presented_tables.specs.Tested.{HasWord};

use crate::describing::{NOT_DESCRIBED, hand_over};
use allocation::Memory;
use label_players::{form_text, presented_form, speaks_of};
use opened::{AcceptedText, OpenedInfinite};
use player::{BEYOND, MEMORY, NOT_A_HEAP, NOT_OPEN, are_sizes, position_of};
use positions::Position;
use presented_checker::PresentedQuotient;
use std::alloc::{AllocError, Global};

/// Whether the presentation speaks of the heaps; else why not.
fn fit(quotient: &PresentedQuotient, heaps: &[u64]) -> Result<(), u32>
    ensures sizes { OnOk result (All IsSize heaps.now) }
    ensures speaks { OnOk result (All (HasWord quotient.now.said) heaps.now) }
    ensures no { IfErr result (λ s. s ≢ 0 × s ≢ 14) }
    ensures why { IfErr result (IsUnspelled heaps.now quotient.now) }
{
    if !are_sizes(heaps) {
        return Err(NOT_A_HEAP);
    }
    if !speaks_of(quotient, heaps) {
        return Err(BEYOND);
    }
    Ok(())
}

/// The word of the element of a position, which is that of the heaps.
fn word_at(
    alloc: Global,
    quotient: &PresentedQuotient,
    heaps: &[u64],
    position: &Position,
) -> Result<String, AllocError>
    requires speaks { All (HasWord quotient.now.said) heaps.now }
    requires same { IsPermutation heaps.now position.now }
    ensures { IfOk result (λ t. IsWordOf heaps.now quotient.now (string_bytes t)) }
{
    let _ = heaps;
    let form = presented_form(quotient, position);
    form_text(alloc, &form)
}

/// The word of the element of the position of the heaps.
fn word_in(alloc: Global, quotient: &PresentedQuotient, heaps: &[u64]) -> Result<Vec<u8>, Memory>
    requires sizes { All IsSize heaps.now }
    requires speaks { All (HasWord quotient.now.said) heaps.now }
    ensures { IfOk result (λ t. IsWordOf heaps.now quotient.now t.items) }
{
    let position = position_of(alloc, heaps)?;
    let text = word_at(alloc, quotient, heaps, &position)?;
    Ok(text.into_bytes())
}

/// The same, or why there is none.
fn spelled(alloc: Global, quotient: &PresentedQuotient, heaps: &[u64]) -> Result<Vec<u8>, u32>
    ensures told { IfOk result (λ t. IsWordOf heaps.now quotient.now t.items) }
    ensures no { IfErr result (λ s. s ≢ 0 × s ≢ 14) }
    ensures why { IfErr result (IsUnspelled heaps.now quotient.now) }
{
    fit(quotient, heaps)?;
    match word_in(alloc, quotient, heaps) {
        Ok(text) => Ok(text),
        Err(Memory) => Err(MEMORY),
    }
}

/// The element of the position of the heaps, or why there is none.
fn value_in(alloc: Global, shown: &AcceptedText, heaps: &[u64]) -> Result<Vec<u8>, u32>
    ensures told { IfOk result (λ t. IsValueIn heaps.now shown.now t.items) }
    ensures no { IfErr result (λ s. s ≢ 0 × s ≢ 14) }
    ensures why { IfErr result (IsUnvalued heaps.now shown.now) }
{
    match shown {
        AcceptedText::Whole(_) => Err(NOT_DESCRIBED),
        AcceptedText::Presented(quotient) => spelled(alloc, quotient, heaps),
    }
}

/// Tells the element of the position of the heaps by a presentation that is opened: the normal form of its word, such as
/// ab^2, or 1. Tells how many bytes it has, too; where there is no room for them, how many they are alone.
pub fn value(
    alloc: Global,
    opened: &mut OpenedInfinite,
    heaps: &[u64],
    told: &mut [u8],
    count: &mut u64,
) -> u32
    ensures yes { result ≡ 0
        → IsOpenedValue opened.old.handle.value heaps.now (take count.new told.new) }
    ensures no { result ≢ 0 → result ≢ 14
        → IsOpenedUnvalued opened.old.handle.value heaps.now result }
    ensures same { opened.new.handle.value ≡ opened.old.handle.value }
    ensures stays { result ≢ 0 → told.new ≡ told.old }
    ensures room { result ≡ 14 → length told.old < count.new }
    ensures counts { result ≡ 14 → (text : List ℕ)
        × IsOpenedValue opened.old.handle.value heaps.now text × (count.new ≡ length text) }
    ensures untold { result ≢ 0 → result ≢ 14 → count.new ≡ count.old }
{
    let Some(quotient) = opened.take(alloc) else {
        return NOT_OPEN;
    };
    let text = value_in(alloc, quotient.shown(), heaps);
    opened.put(alloc, quotient);
    match text {
        Ok(text) => hand_over(&text, told, count),
        Err(status) => status,
    }
}
