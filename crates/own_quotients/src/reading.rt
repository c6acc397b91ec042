//! How tables are read.
ghost use Rattle.std.specs.Prelude.{◌≡◌, ◌≤◌, IfOk, IfErr, Err};
ghost use Rattle.misere_theory.specs.declared.TheConstants.{LARGEST_ORDER};
ghost use Rattle.certificate_lines.specs.Given.{Gives};
ghost use Rattle.own_quotients.specs.Tables.{Own};
ghost use Rattle.own_quotients.specs.Texts.{SpellsTable};
ghost use Rattle.own_quotients.specs.Reading.{own_at, own_lists_at};
ghost use Rattle.own_quotients.specs.Faults.{SpellsNone};

use crate::laws::reading_tables_is_spelling;
use crate::table::OwnTable;
use certificate_lines::{Front, Reader, TextFault, Wanted, line, number_lines, portion, rows};
use std::alloc::Allocator;

/// Why bytes are not read as a table.
#[derive(Clone, Copy, Debug, PartialEq, Eq)]
pub enum TableFault {
    /// They spell none; with the line at which the reader stopped.
    Text(u64),
    /// A growth was refused.
    Memory,
}

/// What the lines before the rows hold.
#[derive(Drop)]
struct Lists<A: Allocator> {
    front: Front,
    heaps: Vec<u16, A>,
    portion: Vec<u16, A>,
}

/// The lines before the rows.
#[tactic(auto, unfolding(crate::specs::Reading::own_lists_at))]
fn list_lines<A: Allocator + Copy>(alloc: A, reader: &mut Reader<'_>) -> Result<Lists<A>, TextFault>
    ensures read { Gives (λ x. (
      (
        (x.front.code, x.front.order, x.front.start, x.front.period),
        x.heaps.items,
        x.portion.items,
      ),
      reader.new,
    )) result (own_lists_at reader.old) }
    ensures order { IfOk result (λ x. (2 ≤ x.front.order) × (x.front.order ≤ LARGEST_ORDER)) }
{
    reader.fixed(b"table 1\n")?;
    let front = number_lines(reader)?;
    let entries = front.start + front.period;
    let heaps = line(alloc, reader, b"heaps", entries as usize - 1, front.order)?;
    let portion = portion(alloc, reader, front.order)?;
    Ok(Lists {
        front,
        heaps,
        portion,
    })
}

/// The table that stands in front.
#[tactic(auto, unfolding(crate::specs::Reading::own_at))]
fn table<A: Allocator + Copy>(alloc: A, reader: &mut Reader<'_>) -> Result<OwnTable<A>, TextFault>
    ensures { Gives (λ x. (x, reader.new)) result (own_at reader.old) }
{
    reading_tables_is_spelling();
    let lists = list_lines(alloc, reader)?;
    let rows = rows(alloc, reader, lists.front.order, lists.front.order as usize)?;
    reader.fixed(b"end\n")?;
    let Lists {
        front,
        heaps,
        portion,
    } = lists;
    let numbers = (front.order, front.start, front.period);
    Ok(OwnTable::from_lists(front.code, numbers, heaps, portion, rows))
}

/// Reads all that is left as a table. After a refusal of `Text` the reader says where it stopped.
pub fn read_table_from<A: Allocator + Copy>(
    alloc: A,
    reader: &mut Reader<'_>,
) -> Result<OwnTable<A>, TextFault>
    ensures ok { IfOk result (λ t. SpellsTable reader.old t) }
    ensures same { (o : Own) → SpellsTable reader.old o → IfOk result (λ t. t ≡ o) }
    ensures text { (result ≡ Err TextFault.Text) → (o : Own) → SpellsTable reader.old o → ⊥ }
{
    reading_tables_is_spelling();
    let table = table(alloc, reader)?;
    if reader.is_at_end() {
        return Ok(table);
    }
    reader.wants(reader.left(), Wanted::End);
    Err(TextFault::Text)
}

/// In which line so many bytes are left.
fn line_with(bytes: &[u8], left: usize) -> u64 {
    let read = bytes.len().saturating_sub(left);
    let mut line = 1u64;
    for byte in &bytes[..read] {
        if *byte == b'\n' {
            line = line.saturating_add(1);
        }
    }
    line
}

/// Reads all of the bytes as a table.
///
/// Refuses `Text` where they spell none, with a line at which they don't go on as a table does, and
/// `Memory` only where a growth was refused. What it reserves grows with what it has read.
pub fn read_table<A: Allocator + Copy>(alloc: A, bytes: &[u8]) -> Result<OwnTable<A>, TableFault>
    // What is read is spelled so.
    ensures ok { IfOk result (λ t. SpellsTable bytes.now t) }
    // Of bytes that spell a table, it is this one that is read.
    ensures same { (o : Own) → SpellsTable bytes.now o → IfOk result (λ t. t ≡ o) }
    // Text only where the bytes spell none.
    ensures none { IfErr result (SpellsNone bytes.now) }
{
    let mut reader = Reader::new(bytes);
    match read_table_from(alloc, &mut reader) {
        Ok(table) => Ok(table),
        Err(TextFault::Memory) => Err(TableFault::Memory),
        Err(TextFault::Text) => Err(TableFault::Text(line_with(bytes, reader.stop().left))),
    }
}
