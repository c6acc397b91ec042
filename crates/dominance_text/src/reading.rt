//! How claims on whole games with a ruling heap are read.
ghost use Rattle.std.specs.Prelude.{◌≡◌, ◌≤◌, ◌+◌, IfOk, Err};
ghost use Rattle.certificate_lines.specs.Given.{Gives};
ghost use Rattle.dominance_text.specs.declared.TheConstants.{MOST_LABELS};
ghost use Rattle.dominance_text.specs.Said.{DominanceSaid};
ghost use Rattle.dominance_text.specs.Spelling.{SpellsDominance};
ghost use Rattle.dominance_text.specs.Reading.{front_at, labels_at, said_at};

use crate::text::DominanceText;
use crate::{LARGEST_WEIGHT, MOST_LABELS};
use certificate_lines::{Reader, TextFault, Wanted, code_line, field, line};
use octal_code::Code;
use std::alloc::Allocator;

/// What the lines up to the rise hold.
#[derive(Clone, Copy)]
struct Front {
    code: Code,
    start: u16,
    period: u16,
    rise: u16,
}

/// The lines up to the rise.
#[tactic(auto, unfolding(crate::specs::Reading::front_at))]
fn front_lines(reader: &mut Reader<'_>) -> Result<Front, TextFault>
    ensures read { Gives (λ x. ((x.code, x.start, x.period, x.rise), reader.new)) result
        (front_at reader.old) }
    ensures range { IfOk result (λ x. (1 ≤ x.start) × (x.start + x.period ≤ MOST_LABELS + 1)) }
{
    reader.fixed(b"mqw 1\ncode ")?;
    let code = code_line(reader)?;
    let start = field(reader, b"start", 1, MOST_LABELS + 1)?;
    let period = field(reader, b"period", 1, MOST_LABELS + 2 - start)?;
    let rise = field(reader, b"rise", 1, LARGEST_WEIGHT + 1)?;
    Ok(Front {
        code,
        start,
        period,
        rise,
    })
}

/// What the lines of numbers hold.
#[derive(Drop)]
struct Labels<A: Allocator> {
    odd: Vec<u16, A>,
    weights: Vec<u16, A>,
    leads: Vec<u16, A>,
}

/// The three lines of so many numbers.
#[tactic(auto, unfolding(crate::specs::Reading::labels_at))]
fn label_lines<A: Allocator + Copy>(
    alloc: A,
    reader: &mut Reader<'_>,
    count: usize,
) -> Result<Labels<A>, TextFault>
    ensures { Gives (λ x. ((x.odd.items, x.weights.items, x.leads.items), reader.new)) result
        (labels_at count reader.old) }
{
    let odd = line(alloc, reader, b"odd", count, 2)?;
    let weights = line(alloc, reader, b"weights", count, LARGEST_WEIGHT + 1)?;
    let leads = line(alloc, reader, b"leads", count, LARGEST_WEIGHT + 1)?;
    Ok(Labels {
        odd,
        weights,
        leads,
    })
}

/// What all lines hold.
#[tactic(auto, unfolding(crate::specs::Reading::said_at))]
fn lines<A: Allocator + Copy>(
    alloc: A,
    reader: &mut Reader<'_>,
) -> Result<DominanceText<A>, TextFault>
    ensures { Gives (λ x. (x, reader.new)) result (said_at reader.old) }
{
    let front = front_lines(reader)?;
    let Labels {
        odd,
        weights,
        leads,
    } = label_lines(alloc, reader, (front.start + front.period - 1) as usize)?;
    reader.fixed(b"end\n")?;
    Ok(DominanceText {
        code: front.code,
        start: front.start,
        period: front.period,
        rise: front.rise,
        odd,
        weights,
        leads,
    })
}

/// Reads all that is left as a claim on a whole game with a ruling heap. After a refusal of `Text` the
/// reader says where it stopped.
pub fn read_from<A: Allocator + Copy>(
    alloc: A,
    reader: &mut Reader<'_>,
) -> Result<DominanceText<A>, TextFault>
    ensures ok { IfOk result (λ t. SpellsDominance reader.old t) }
    ensures same { (c : DominanceSaid) → SpellsDominance reader.old c → IfOk result (λ t. t ≡ c) }
    ensures text { (result ≡ Err TextFault.Text) → (c : DominanceSaid)
        → SpellsDominance reader.old c → ⊥ }
{
    crate::reading_is_spelling();
    let said = lines(alloc, reader)?;
    if reader.is_at_end() {
        return Ok(said);
    }
    reader.wants(reader.left(), Wanted::End);
    Err(TextFault::Text)
}

/// Reads all of the bytes as a claim on a whole game with a ruling heap.
///
/// Refuses `Text` where they spell none, and `Memory` only where a growth was refused. What it
/// reserves grows with what it has read, three numbers of 2 bytes for each of 1,024 heaps at most.
pub fn read<A: Allocator + Copy>(alloc: A, bytes: &[u8]) -> Result<DominanceText<A>, TextFault>
    // What is read is spelled so.
    ensures ok { IfOk result (λ t. SpellsDominance bytes.now t) }
    // Of bytes that spell a claim, it is this one that is read.
    ensures same { (c : DominanceSaid) → SpellsDominance bytes.now c → IfOk result (λ t. t ≡ c) }
    // Text only where the bytes spell none.
    ensures text { (result ≡ Err TextFault.Text) → (c : DominanceSaid) → SpellsDominance bytes.now c
        → ⊥ }
{
    read_from(alloc, &mut Reader::new(bytes))
}
