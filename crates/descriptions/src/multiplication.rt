//! The multiplication table of a quotient, for GAP.
ghost use Rattle.std.specs.Prelude.{◌≡◌, ◌<◌, ◌≤◌, IfOk, All};
ghost use Rattle.std.specs.String.{string_bytes};
ghost use Rattle.misere_theory.specs.declared.TheConstants.{LARGEST_ORDER};
ghost use Rattle.descriptions.specs.MultiplicationTables.{comma, list_statements, more_numbers, number_text, numbers_text, products_text, rows_text, table_statement, table_text, tail_statements};
ghost use Rattle.descriptions.specs.Systems.{title_text};

use crate::finding::table_of;
use crate::joining::all_three;
use crate::systems::title_text;
use allocation::Memory;
use answers::Certified;
use certificate::{Cert, in_ranges};
use monoid_table::Table;
use std::alloc::{AllocError, Global};

/// An element by its number in GAP.
fn number_text(alloc: Global, x: u16) -> Result<String, AllocError>
    requires { x < LARGEST_ORDER }
    ensures { IfOk result (λ t. string_bytes t ≡ number_text x) }
{
    let number = x + 1;
    let text = format!(in alloc; "{number}")?;
    Ok(text)
}

/// A comma before each element.
fn more_numbers(alloc: Global, elements: &[u16]) -> Result<String, AllocError>
    requires { All (λ x. x < LARGEST_ORDER) elements.now }
    ensures { IfOk result (λ t. string_bytes t ≡ more_numbers elements.now) }
{
    let mut text = String::new(alloc);
    for x in elements {
        let number = number_text(alloc, *x)?;
        text.push_str(",")?;
        text.push_str(number.as_str())?;
    }
    Ok(text)
}

/// Elements with a comma between each two.
fn numbers_text(alloc: Global, elements: &[u16]) -> Result<String, AllocError>
    requires { All (λ x. x < LARGEST_ORDER) elements.now }
    ensures { IfOk result (λ t. string_bytes t ≡ numbers_text elements.now) }
{
    if elements.len() == 0 {
        return Ok(String::new(alloc));
    }
    let mut text = number_text(alloc, elements[0])?;
    let more = more_numbers(alloc, &elements[1..])?;
    text.push_str(more.as_str())?;
    Ok(text)
}

/// A comma, but not before the first one.
fn comma(k: u16) -> &'static str
    ensures { result.now ≡ comma k }
{
    if k == 0 { "" } else { "," }
}

/// The products of x with all elements.
fn products_text(alloc: Global, table: &Table, x: u16) -> Result<String, AllocError>
    requires { x < table.now.order }
    ensures { IfOk result (λ t. string_bytes t ≡ products_text table.now x table.now.order) }
{
    let mut text = String::new(alloc);
    for y in 0..table.order() {
        let number = number_text(alloc, table.times(x, y))?;
        text.push_str(comma(y))?;
        text.push_str(number.as_str())?;
    }
    Ok(text)
}

/// The rows of all elements.
fn rows_text(alloc: Global, table: &Table) -> Result<String, AllocError>
    ensures { IfOk result (λ t. string_bytes t ≡ rows_text table.now table.now.order) }
{
    let mut text = String::new(alloc);
    for x in 0..table.order() {
        let products = products_text(alloc, table, x)?;
        text.push_str(comma(x))?;
        text.push_str("\n  [")?;
        text.push_str(products.as_str())?;
        text.push_str("]")?;
    }
    Ok(text)
}

/// The statement of the table, of the texts of its title and its rows.
fn table_statement(alloc: Global, title: &str, rows: &str) -> Result<String, AllocError>
    ensures { IfOk result (λ t. string_bytes t ≡ table_statement title.now rows.now) }
{
    let text = format!(in alloc;
        "# {title}: SemigroupByMultiplicationTable(T)\nT := [{rows}];;\n"
    )?;
    Ok(text)
}

/// The statements of the portion and of the heaps, of the texts of their elements.
fn list_statements(alloc: Global, portion: &str, heaps: &str) -> Result<String, AllocError>
    ensures { IfOk result (λ t. string_bytes t ≡ list_statements portion.now heaps.now) }
{
    let text = format!(in alloc; "P := [{portion}];;\nheaps := [{heaps}];;\n")?;
    Ok(text)
}

/// The statements of how the heaps go on.
fn tail_statements(alloc: Global, start: u64, period: u64) -> Result<String, AllocError>
    ensures { IfOk result (λ t. string_bytes t ≡ tail_statements start period) }
{
    let text = format!(in alloc; "start := {start};;\nperiod := {period};;\n")?;
    Ok(text)
}

/// The statement of the certificate's table.
fn table_part(alloc: Global, cert: &Cert, table: &Table) -> Result<String, Memory>
    ensures { IfOk result (λ t. string_bytes t
        ≡ table_statement (title_text cert.now) (rows_text table.now table.now.order)) }
{
    let title = title_text(alloc, cert)?;
    let rows = rows_text(alloc, table)?;
    let text = table_statement(alloc, title.as_str(), rows.as_str())?;
    Ok(text)
}

/// The statements of the certificate's portion and heaps.
fn lists_part(alloc: Global, cert: &Cert) -> Result<String, AllocError>
    ensures { IfOk result (λ t. string_bytes t
        ≡ list_statements (numbers_text cert.now.portion) (numbers_text cert.now.phi)) }
{
    in_ranges(cert);
    let portion = numbers_text(alloc, cert.portion())?;
    let heaps = numbers_text(alloc, cert.phi().entries())?;
    list_statements(alloc, portion.as_str(), heaps.as_str())
}

/// The multiplication table of the certified quotient for GAP, with its portion and the elements of the
/// heaps as lists.
pub fn table_text(alloc: Global, certified: &Certified) -> Result<String, Memory>
    ensures { IfOk result (λ t. string_bytes t ≡ table_text certified.now) }
{
    let table = table_of(alloc, certified)?;
    let cert = certified.cert();
    let first = table_part(alloc, cert, &table)?;
    let lists = lists_part(alloc, cert)?;
    let tail = tail_statements(alloc, cert.start(), cert.period())?;
    let text = all_three(alloc, first.as_str(), lists.as_str(), tail.as_str())?;
    Ok(text)
}
