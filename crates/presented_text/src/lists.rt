//! Lines of words, for as long as spaces stand, and relations for as long as lines of them do.
ghost use Rattle.std.specs.Prelude.{◌≡◌, ◌<◌, codes};
ghost use Rattle.certificate_lines.specs.Given.{Gives};
ghost use Rattle.presented_text.specs.Read.{spelled_at};
ghost use Rattle.presented_text.specs.Reading.{while_at, positive_at, heap_word_at, relation_at, cycle_at};

use crate::items::{cycle, heap_word, positive, relation};
use crate::{LetterCycle, word};
use certificate_lines::{Reader, TextFault};
use normal_forms::{Exponents, Rule};
use std::alloc::Allocator;

/// Numbers from 1 up to below the limit, at most `room`.
pub fn heaps<A: Allocator>(
    alloc: A,
    reader: &mut Reader<'_>,
    room: u16,
    limit: u16,
) -> Result<Vec<u16, A>, TextFault>
    requires { 0 < limit }
    ensures { Gives (λ x. (x.items, reader.new)) result
        (while_at (codes " ") (positive_at limit) room reader.old) }
{
    let mut found = Vec::new(alloc);
    for _ in 0..room {
        if !reader.takes(b" ") {
            return Ok(found);
        }
        found.push(positive(reader, limit)?)?;
    }
    Ok(found)
}

/// Words of heaps, at most `room`.
pub fn heap_words<A: Allocator>(
    alloc: A,
    reader: &mut Reader<'_>,
    room: u16,
) -> Result<Vec<Option<Exponents>, A>, TextFault>
    ensures { Gives (λ x. (x.items, reader.new)) result
        (while_at (codes " ") heap_word_at room reader.old) }
{
    let mut found = Vec::new(alloc);
    for _ in 0..room {
        if !reader.takes(b" ") {
            return Ok(found);
        }
        found.push(heap_word(reader)?)?;
    }
    Ok(found)
}

/// Relations, at most `room`.
pub fn relations<A: Allocator>(
    alloc: A,
    reader: &mut Reader<'_>,
    room: u16,
) -> Result<Vec<Rule, A>, TextFault>
    ensures { Gives (λ x. (x.items, reader.new)) result
        (while_at (codes "relation ") relation_at room reader.old) }
{
    let mut found = Vec::new(alloc);
    for _ in 0..room {
        if !reader.takes(b"relation ") {
            return Ok(found);
        }
        found.push(relation(reader)?)?;
    }
    Ok(found)
}

/// Cycles, at most `room`.
pub fn cycles<A: Allocator>(
    alloc: A,
    reader: &mut Reader<'_>,
    room: usize,
) -> Result<Vec<LetterCycle, A>, TextFault>
    ensures { Gives (λ x. (x.items, reader.new)) result
        (while_at (codes " ") cycle_at room reader.old) }
{
    let mut found = Vec::new(alloc);
    for _ in 0..room {
        if !reader.takes(b" ") {
            return Ok(found);
        }
        found.push(cycle(reader)?)?;
    }
    Ok(found)
}

/// Words, at most `room`.
pub fn words<A: Allocator>(
    alloc: A,
    reader: &mut Reader<'_>,
    room: u16,
) -> Result<Vec<Exponents, A>, TextFault>
    ensures { Gives (λ x. (x.items, reader.new)) result
        (while_at (codes " ") spelled_at room reader.old) }
{
    let mut found = Vec::new(alloc);
    for _ in 0..room {
        if !reader.takes(b" ") {
            return Ok(found);
        }
        found.push(word(reader)?)?;
    }
    Ok(found)
}
