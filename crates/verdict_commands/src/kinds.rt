//! The kinds of texts, and which of them bytes are.
ghost use Rattle.std.specs.Prelude.{◌≡◌, IfOk};
ghost use Rattle.std.specs.String.{string_bytes};
ghost use Rattle.verdict_commands.specs.Explained.{IsAnswerOf, IsSeen, kind_line};
ghost use Rattle.verdict_commands.specs.declared.kinds.Kind.TheVariants.{Certificate, Whole, Presented, Table};

use crate::stops::Furthest;
use allocation::Memory;
use certificate::{Reader, TextFault};
use std::alloc::{AllocError, Global};

/// The kinds of texts that a command reads.
#[derive(Clone, Copy, Debug, PartialEq, Eq)]
pub enum Kind {
    /// A certificate, `mqc`.
    Certificate,
    /// A whole game with a ruling heap, `mqw`.
    Whole,
    /// A presentation, `mqp`.
    Presented,
    /// A quotient in a numbering of one's own, `table`.
    Table,
}

impl Kind {
    /// The line that names it, and the command that reads it.
    pub(crate) fn text(self, alloc: Global) -> Result<String, AllocError>
        ensures { IfOk result (λ t. string_bytes t ≡ kind_line self) }
    {
        let line = match self {
            Kind::Certificate => "a certificate's text\n",
            Kind::Whole => "the text of a whole game: misere infinite checks it\n",
            Kind::Presented => "the text of a presentation: misere verify checks it\n",
            Kind::Table => "the text of a table: misere certify reads it\n",
        };
        String::from_str(alloc, line)
    }
}

/// What kind of text bytes are, or why they are none.
#[derive(Clone, Copy, Debug, PartialEq, Eq)]
pub(crate) enum Seen {
    Is(Kind),
    Not(Furthest),
}

fn is_certificate(alloc: Global, reader: &mut Reader<'_>) -> Result<bool, Memory>
    ensures { IfOk result (IsAnswerOf Certificate reader.old) }
{
    match certificate::read_from(alloc, reader) {
        Ok(_) => Ok(true),
        Err(TextFault::Text) => Ok(false),
        Err(TextFault::Memory) => Err(Memory),
    }
}

fn is_whole(alloc: Global, reader: &mut Reader<'_>) -> Result<bool, Memory>
    ensures { IfOk result (IsAnswerOf Whole reader.old) }
{
    match dominance_text::read_from(alloc, reader) {
        Ok(_) => Ok(true),
        Err(TextFault::Text) => Ok(false),
        Err(TextFault::Memory) => Err(Memory),
    }
}

fn is_presented(alloc: Global, reader: &mut Reader<'_>) -> Result<bool, Memory>
    ensures { IfOk result (IsAnswerOf Presented reader.old) }
{
    match presented_text::read_from(alloc, reader) {
        Ok(_) => Ok(true),
        Err(TextFault::Text) => Ok(false),
        Err(TextFault::Memory) => Err(Memory),
    }
}

fn is_table(alloc: Global, reader: &mut Reader<'_>) -> Result<bool, Memory>
    ensures { IfOk result (IsAnswerOf Table reader.old) }
{
    match own_quotients::read_table_from(alloc, reader) {
        Ok(_) => Ok(true),
        Err(TextFault::Text) => Ok(false),
        Err(TextFault::Memory) => Err(Memory),
    }
}

/// Whether the bytes are a text of this kind. If the reader came further than others, its place is kept.
fn is_of(alloc: Global, kind: Kind, bytes: &[u8], furthest: &mut Furthest) -> Result<bool, Memory>
    ensures { IfOk result (IsAnswerOf kind bytes.now) }
{
    let mut reader = Reader::new(bytes);
    let is = match kind {
        Kind::Certificate => is_certificate(alloc, &mut reader)?,
        Kind::Whole => is_whole(alloc, &mut reader)?,
        Kind::Presented => is_presented(alloc, &mut reader)?,
        Kind::Table => is_table(alloc, &mut reader)?,
    };
    *furthest = furthest.or(bytes, reader.stop());
    Ok(is)
}

/// What kind of text the bytes are, or where the reader that came furthest stopped.
pub(crate) fn kind_of(alloc: Global, bytes: &[u8]) -> Result<Seen, Memory>
    ensures { IfOk result (IsSeen bytes.now) }
{
    let mut furthest = Furthest::unknown();
    if is_of(alloc, Kind::Certificate, bytes, &mut furthest)? {
        return Ok(Seen::Is(Kind::Certificate));
    }
    if is_of(alloc, Kind::Whole, bytes, &mut furthest)? {
        return Ok(Seen::Is(Kind::Whole));
    }
    if is_of(alloc, Kind::Presented, bytes, &mut furthest)? {
        return Ok(Seen::Is(Kind::Presented));
    }
    if is_of(alloc, Kind::Table, bytes, &mut furthest)? {
        return Ok(Seen::Is(Kind::Table));
    }
    Ok(Seen::Not(furthest))
}
