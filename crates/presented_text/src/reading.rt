//! How presentations are read.
ghost use Rattle.std.specs.Prelude.{◌≡◌, ◌≤◌, ◌<◌, ◌+◌, IfOk, Err, Some, codes};
ghost use Rattle.certificate_lines.specs.Given.{Gives};
ghost use Rattle.presented_text.specs.Read.{spelled_at};
ghost use Rattle.certificate_text.specs.Reading.{otherwise, fixed_at};
ghost use Rattle.presented_text.specs.declared.TheConstants.{MOST_HEAPS, MOST_ITEMS, MOST_GENERATORS};
ghost use Rattle.presented_text.specs.Said.{PresentedSaid};
ghost use Rattle.presented_text.specs.Spelling.{SpellsPresented};
ghost use Rattle.presented_text.specs.Reading.{front_at, some_at, exact_at, while_at, positive_at, heap_word_at, relation_at, cycle_at, said_at};

use crate::items::positive;
use crate::text::PresentedText;
use crate::{LetterCycle, MOST_GENERATORS, MOST_HEAPS, MOST_ITEMS, lists};
use certificate_lines::{Reader, TextFault, Wanted, code_line};
use normal_forms::Exponents;
use octal_code::Code;
use std::alloc::Allocator;

/// What the lines up to the heaps hold.
#[derive(Clone, Copy)]
struct Front {
    code: Code,
    heaps: u16,
    period: u16,
}

/// The period of a whole game, 0 if there is none.
fn period(reader: &mut Reader<'_>, heaps: u16) -> Result<u16, TextFault>
    requires { heaps ≤ MOST_HEAPS }
    ensures { Gives (λ x. (x, reader.new)) result
        (otherwise (fixed_at (codes " period ") reader.old) (Some (0, reader.old))
        (positive_at (heaps + 1))) }
{
    if !reader.takes(b" period ") {
        return Ok(0);
    }
    positive(reader, heaps + 1)
}

/// The lines up to the heaps.
#[tactic(auto, unfolding(crate::specs::Reading::front_at))]
fn front_lines(reader: &mut Reader<'_>) -> Result<Front, TextFault>
    ensures read { Gives (λ x. ((x.code, x.heaps, x.period), reader.new)) result (front_at reader.old) }
    ensures range { IfOk result (λ x. (1 ≤ x.heaps) × (x.heaps ≤ MOST_HEAPS)) }
{
    reader.fixed(b"mqp 1\ncode ")?;
    let code = code_line(reader)?;
    reader.fixed(b"heaps ")?;
    let heaps = positive(reader, MOST_HEAPS + 1)?;
    let period = period(reader, heaps)?;
    reader.fixed(b"\n")?;
    Ok(Front {
        code,
        heaps,
        period,
    })
}

/// The line of the letters' heaps.
#[tactic(auto, unfolding(crate::specs::Reading::some_at))]
fn letters_line<A: Allocator>(alloc: A, reader: &mut Reader<'_>) -> Result<Vec<u16, A>, TextFault>
    ensures { Gives (λ x. (x.items, reader.new)) result
        (some_at (codes "letters") (positive_at (MOST_HEAPS + 1)) MOST_GENERATORS reader.old) }
{
    reader.fixed(b"letters")?;
    let found = lists::heaps(alloc, reader, MOST_GENERATORS, MOST_HEAPS + 1)?;
    reader.fixed(b"\n")?;
    Ok(found)
}

/// The line of the heaps' words, of which there are so many. (Likewise: cycle_line, portion_line.)
#[tactic(auto, unfolding(crate::specs::Reading::exact_at, crate::specs::Reading::some_at))]
fn words_line<A: Allocator>(
    alloc: A,
    reader: &mut Reader<'_>,
    count: u16,
) -> Result<Vec<Option<Exponents>, A>, TextFault>
    ensures { Gives (λ x. (x.items, reader.new)) result
        (exact_at (codes "words") heap_word_at count reader.old) }
{
    reader.fixed(b"words")?;
    let found = lists::heap_words(alloc, reader, count)?;
    reader.fixed(b"\n")?;
    if found.len() == count as usize {
        return Ok(found);
    }
    reader.wants(reader.left().saturating_add(1), Wanted::More);
    Err(TextFault::Text)
}

/// The line of the letters' cycles.
#[tactic(auto, unfolding(crate::specs::Reading::exact_at, crate::specs::Reading::some_at))]
fn cycle_line<A: Allocator>(
    alloc: A,
    reader: &mut Reader<'_>,
    count: usize,
) -> Result<Vec<LetterCycle, A>, TextFault>
    ensures { Gives (λ x. (x.items, reader.new)) result
        (exact_at (codes "cycle") cycle_at count reader.old) }
{
    reader.fixed(b"cycle")?;
    let found = lists::cycles(alloc, reader, count)?;
    reader.fixed(b"\n")?;
    if found.len() == count {
        return Ok(found);
    }
    reader.wants(reader.left().saturating_add(1), Wanted::More);
    Err(TextFault::Text)
}

/// The line of the portion.
#[tactic(auto, unfolding(crate::specs::Reading::some_at))]
fn portion_line<A: Allocator>(
    alloc: A,
    reader: &mut Reader<'_>,
) -> Result<Vec<Exponents, A>, TextFault>
    ensures { Gives (λ x. (x.items, reader.new)) result
        (some_at (codes "portion") spelled_at MOST_ITEMS reader.old) }
{
    reader.fixed(b"portion")?;
    let found = lists::words(alloc, reader, MOST_ITEMS)?;
    reader.fixed(b"\n")?;
    Ok(found)
}

/// What all lines hold.
#[tactic(auto, unfolding(crate::specs::Reading::said_at))]
fn lines<A: Allocator + Copy>(
    alloc: A,
    reader: &mut Reader<'_>,
) -> Result<PresentedText<A>, TextFault>
    ensures { Gives (λ x. (x, reader.new)) result (said_at reader.old) }
{
    let front = front_lines(reader)?;
    let letters = letters_line(alloc, reader)?;
    let words = words_line(alloc, reader, front.heaps)?;
    let relations = lists::relations(alloc, reader, MOST_ITEMS)?;
    let cycles = cycle_line(alloc, reader, letters.len())?;
    let portion = portion_line(alloc, reader)?;
    reader.fixed(b"end\n")?;
    Ok(PresentedText {
        code: front.code,
        heaps: front.heaps,
        period: front.period,
        letters,
        words,
        relations,
        cycles,
        portion,
    })
}

/// Reads all that is left as a presentation. After a refusal of `Text` the reader says where it stopped.
pub fn read_from<A: Allocator + Copy>(
    alloc: A,
    reader: &mut Reader<'_>,
) -> Result<PresentedText<A>, TextFault>
    ensures ok { IfOk result (λ t. SpellsPresented reader.old t) }
    ensures same { (c : PresentedSaid) → SpellsPresented reader.old c → IfOk result (λ t. t ≡ c) }
    ensures text { (result ≡ Err TextFault.Text) → (c : PresentedSaid)
        → SpellsPresented reader.old c → ⊥ }
{
    crate::reading_is_spelling();
    let said = lines(alloc, reader)?;
    if reader.is_at_end() {
        return Ok(said);
    }
    reader.wants(reader.left(), Wanted::End);
    Err(TextFault::Text)
}

/// Reads all of the bytes as a presentation.
///
/// Refuses `Text` where they spell none, and `Memory` only where a growth was refused. What it reserves
/// grows with what it has read.
pub fn read<A: Allocator + Copy>(alloc: A, bytes: &[u8]) -> Result<PresentedText<A>, TextFault>
    // What is read is spelled so.
    ensures ok { IfOk result (λ t. SpellsPresented bytes.now t) }
    // Of bytes that spell a presentation, it is this one that is read.
    ensures same { (c : PresentedSaid) → SpellsPresented bytes.now c → IfOk result (λ t. t ≡ c) }
    // Text only where the bytes spell none.
    ensures text { (result ≡ Err TextFault.Text) → (c : PresentedSaid) → SpellsPresented bytes.now c
        → ⊥ }
{
    read_from(alloc, &mut Reader::new(bytes))
}
