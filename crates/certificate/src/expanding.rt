//! The table and the separators of a certificate that says its first rows alone.
ghost use Rattle.std.specs.Prelude.{◌≡◌, ◌<◌, ◌==◌, ◌*◌, ℕ, IfOk, All, false, length, slice_index_or};
ghost use Rattle.std.specs.List.{concat, list_any, range_with_len};
ghost use Rattle.compact_certificates.specs.Compact.{expanded};
ghost use Rattle.certificate.specs.Fields.{HasFirstRows, compact_of};

use crate::cert::Cert;
use crate::fields::Fields;
use certificate_lines::firsts;
use compact_certificates::products::{products_lie_behind, push_product};
use compact_certificates::separators::{flat_tables_have_the_same_separators, least_separators};
use compact_certificates::{certificates_in_ranges_have_tables, expandable_certificates_are_told};
use std::alloc::{AllocError, Allocator};

/// The row of the identity, with room for all rows.
fn identity<A: Allocator>(alloc: A, order: u16) -> Result<Vec<u16, A>, AllocError>
    ensures { IfOk result (λ row. row.items ≡ range_with_len 0 order) }
{
    let mut row = Vec::with_capacity(alloc, order as usize * order as usize)?;
    for x in 0..order {
        row.push(x)?;
    }
    Ok(row)
}

/// All rows, one behind the other: that of the identity, the first ones, and for each further key
/// that of its product.
fn all_rows<A: Allocator + Copy>(alloc: A, fields: &Fields<A>) -> Result<Vec<u16, A>, AllocError>
    requires { HasFirstRows fields.now }
    ensures { IfOk result (λ rows. rows.items ≡ concat (expanded (compact_of fields.now)).rows) }
{
    products_lie_behind();
    let mut rows = identity(alloc, fields.order)?;
    rows.extend_from_slice(&fields.rows)?;
    for i in firsts(&fields.words)..fields.words.len() {
        let key = fields.words[i];
        let heap = fields.phi.at(key.heap as u64);
        push_product(&mut rows, fields.order, key.element, heap)?;
    }
    Ok(rows)
}

/// Which elements are in the portion.
fn marks<A: Allocator>(alloc: A, order: u16, portion: &[u16]) -> Result<Vec<bool, A>, AllocError>
    requires { All (λ x. x < order) portion.now }
    ensures long { IfOk result (λ marks. length marks.items ≡ order) }
    ensures marked { IfOk result (λ marks. (x : ℕ)
        → slice_index_or marks.items x false ≡ list_any (λ y. y == x) portion.now) }
{
    let mut marks = vec![in alloc; false; order as usize]?;
    for x in portion {
        marks[*x as usize] = true;
    }
    Ok(marks)
}

/// The certificate with all that follows from its first rows.
///
/// It reserves the whole table and all separators, and for a while a bit for each product.
pub fn expanded<A: Allocator + Copy>(alloc: A, fields: Fields<A>) -> Result<Cert<A>, AllocError>
    requires { HasFirstRows fields }
    ensures { IfOk result (λ cert. cert ≡ expanded (compact_of fields)) }
{
    certificates_in_ranges_have_tables();
    flat_tables_have_the_same_separators();
    let rows = all_rows(alloc, &fields)?;
    let inside = marks(alloc, fields.order, &fields.portion)?;
    let apart = least_separators(alloc, fields.order, &rows, &inside)?;
    Ok(Cert::from_fields(Fields {
        rows,
        apart,
        ..fields
    }))
}
