//! How certificates are read.
ghost use Rattle.std.specs.Prelude.{◌≡◌, ◌≤◌, ◌*◌, IfOk, Err, ℕ, List, [], Some, true, length};
ghost use Rattle.std.specs.List.{concat};
ghost use Rattle.misere_theory.specs.declared.TheConstants.{LARGEST_ORDER};
ghost use Rattle.misere_theory.specs.Certificates.{Certificate};
ghost use Rattle.compact_certificates.specs.Rows.{firsts_of};
ghost use Rattle.compact_certificates.specs.Compact.{expanded, is_expandable};
ghost use Rattle.certificate_lines.specs.Given.{Gives};
ghost use Rattle.certificate.specs.Fields.{fields_of, compact_of};
ghost use Rattle.certificate_text.specs.Reading.{certificate_at, table_at, first_rows_at, rows_of};
ghost use Rattle.certificate_text.specs.Spelling.{Spells, IsWritable};

use crate::cert::Cert;
use crate::expanding::expanded;
use crate::firsts::is_expandable;
use crate::lists::{Lists, list_lines};
use certificate_lines::{Reader, TextFault, Wanted, firsts, line, rows};
use certificate_text::LONGEST_TEXT;
use std::alloc::Allocator;

/// The rows and the separators behind the lists.
#[tactic(auto, unfolding(certificate_text::specs::Reading::table_at))]
fn table<A: Allocator + Copy>(
    alloc: A,
    reader: &mut Reader<'_>,
    lists: Lists<A>,
) -> Result<Cert<A>, TextFault>
    requires order { (2 ≤ lists.order) × (lists.order ≤ LARGEST_ORDER) }
    requires writable { (c : Certificate) (rest : List ℕ) → table_at lists reader.old ≡ Some (c, rest)
        → IsWritable c }
    ensures { Gives (λ x. (x, reader.new)) result (table_at lists reader.old) }
{
    certificate_text::rows_lie_flat();
    let order = lists.front.order;
    let pairs = order as usize * (order as usize - 1) / 2;
    let rows = rows(alloc, reader, order, order as usize)?;
    let apart = line(alloc, reader, b"apart", pairs, order)?;
    reader.fixed(b"end\n")?;
    Ok(Cert::from_fields(lists.with_table(rows, apart)))
}

/// The first rows behind the lists, where all others can be made of them.
#[tactic(auto, unfolding(certificate_text::specs::Reading::first_rows_at))]
fn first_rows<A: Allocator + Copy>(
    alloc: A,
    reader: &mut Reader<'_>,
    lists: &Lists<A>,
) -> Result<Vec<u16, A>, TextFault>
    requires order { (2 ≤ lists.now.order) × (lists.now.order ≤ LARGEST_ORDER) }
    ensures read { Gives (λ x. (expanded (compact_of (fields_of lists.now x.items [])), reader.new))
        result (first_rows_at lists.now reader.old) }
    ensures expandable { IfOk result (λ _. is_expandable lists.now ≡ true) }
    ensures long { IfOk result (λ x. length x.items
        ≡ firsts_of lists.now.words * lists.now.order) }
    ensures flat { IfOk result (λ x.
        concat (rows_of lists.now.order (firsts_of lists.now.words) x.items) ≡ x.items) }
{
    certificate_text::rows_lie_flat();
    let rows = rows(alloc, reader, lists.front.order, firsts(&lists.words))?;
    reader.fixed(b"end\n")?;
    if is_expandable(lists) {
        return Ok(rows);
    }
    reader.wants(
        reader.left(),
        Wanted::Words("keys of which all rows can be made"),
    );
    Err(TextFault::Text)
}

/// The certificate that stands in front.
#[tactic(auto, unfolding(certificate_text::specs::Reading::certificate_at))]
fn certificate<A: Allocator + Copy>(alloc: A, reader: &mut Reader<'_>) -> Result<Cert<A>, TextFault>
    ensures { Gives (λ x. (x, reader.new)) result (certificate_at reader.old) }
{
    certificate_text::reading_is_spelling();
    let before = reader.left();
    let lists = list_lines(alloc, reader)?;
    if lists.format() != 3 {
        return table(alloc, reader, lists);
    }
    let rows = first_rows(alloc, reader, &lists)?;
    let length = before.saturating_sub(reader.left());
    if length > LONGEST_TEXT {
        reader.wants(reader.left(), Wanted::Words("at most 4194304 bytes"));
        return Err(TextFault::Text);
    }
    Ok(expanded(alloc, lists.with_table(rows, Vec::new(alloc)))?)
}

/// Reads all that is left as a certificate. After a refusal of `Text` the reader says where it stopped.
pub fn read_from<A: Allocator + Copy>(
    alloc: A,
    reader: &mut Reader<'_>,
) -> Result<Cert<A>, TextFault>
    ensures ok { IfOk result (λ c. Spells reader.old c) }
    ensures same { (c : Certificate) → Spells reader.old c → IfOk result (λ d. d ≡ c) }
    ensures text { (result ≡ Err TextFault.Text) → (c : Certificate) → Spells reader.old c → ⊥ }
{
    certificate_text::reading_is_spelling();
    let cert = certificate(alloc, reader)?;
    if reader.is_at_end() {
        return Ok(cert);
    }
    reader.wants(reader.left(), Wanted::End);
    Err(TextFault::Text)
}

/// Reads all of the bytes as a certificate.
///
/// Refuses `Text` where they spell none, and `Memory` only where a growth was refused.
///
/// In the first two formats what it reserves grows with what it has read. In the third it reserves
/// the whole table and all separators, order² and order·(order-1)/2 numbers of 2 bytes each, once
/// all lines are read and it is known that the rows can be made.
pub fn read<A: Allocator + Copy>(alloc: A, bytes: &[u8]) -> Result<Cert<A>, TextFault>
    // What is read is spelled so.
    ensures ok { IfOk result (λ c. Spells bytes.now c) }
    // Of bytes that spell a certificate, it is this one that is read.
    ensures same { (c : Certificate) → Spells bytes.now c → IfOk result (λ d. d ≡ c) }
    // Text only where the bytes spell none.
    ensures text { (result ≡ Err TextFault.Text) → (c : Certificate) → Spells bytes.now c → ⊥ }
{
    read_from(alloc, &mut Reader::new(bytes))
}
