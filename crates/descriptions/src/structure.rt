//! The text that tells the structure of a quotient by its idempotents.
ghost use Rattle.std.specs.Prelude.{◌≡◌, ◌<◌, ◌≤◌, ◌++◌, [], IfOk, All, codes, length, slice_index_or, vec_len};
ghost use Rattle.std.specs.String.{string_bytes};
ghost use Rattle.certificate.specs.Fields.{grid_of};
ghost use Rattle.presentations.specs.declared.TheConstants.{LETTERS};
ghost use Rattle.descriptions.specs.Described.{Describes};
ghost use Rattle.descriptions.specs.Structure.{AreLines, AreLinesOf, IsIdempotent, IsStructure, below_line, share_line, structure_head};
ghost use Rattle.relations.specs.Printed.{word_text};
ghost use Rattle.relations.specs.declared.finding.Form.TheVariants.{Basis};
ghost use Rattle.relations.specs.declared.text.Notation.TheVariants.{Plain};

use crate::choosing::{Part, those};
use crate::components::{Share, belonging};
use crate::finding::{describe_table, table_of};
use crate::invariants::lowest;
use crate::joining::{all_three, both};
use crate::lines::list_text;
use crate::systems::title_text;
use allocation::Memory;
use answers::Certified;
use certificate::Cert;
use monoid_table::Table;
use presentations::Word;
use relations::{Description, Form, Notation, Undescribed, word_text};
use std::alloc::{AllocError, Global};

/// The word of an element.
fn element_text(
    alloc: Global,
    letters: u8,
    words: &[Word],
    element: u16,
) -> Result<String, AllocError>
    requires letters { letters ≤ LETTERS }
    requires element_in { element < length words.now }
    ensures { IfOk result
        (λ t. string_bytes t ≡ word_text Plain letters (slice_index_or words.now element [])) }
{
    let text = word_text(alloc, Notation::Plain, letters, &words[element as usize])?;
    Ok(text)
}

/// The line of elements that belong to e, under a name.
fn share_text(
    alloc: Global,
    name: &str,
    letters: u8,
    words: &[Word],
    e: u16,
    elements: &[u16],
) -> Result<String, AllocError>
    requires letters { letters ≤ LETTERS }
    requires e_in { e < length words.now }
    requires elements { All (λ x. x < length words.now) elements.now }
    ensures { IfOk result
        (λ t. string_bytes t ≡ share_line name.now letters words.now e elements.now) }
{
    let word = element_text(alloc, letters, words, e)?;
    let head = format!(in alloc; "{name} {word}:")?;
    let text = list_text(
        alloc,
        Notation::Plain,
        head.as_str(),
        letters,
        words,
        elements,
    )?;
    Ok(text)
}

/// The line of the idempotents that e covers.
fn below_text(
    alloc: Global,
    letters: u8,
    words: &[Word],
    e: u16,
    elements: &[u16],
) -> Result<String, AllocError>
    requires letters { letters ≤ LETTERS }
    requires e_in { e < length words.now }
    requires elements { All (λ x. x < length words.now) elements.now }
    ensures { IfOk result (λ t. string_bytes t ≡ below_line letters words.now e elements.now) }
{
    if elements.len() == 0 {
        return Ok(String::new(alloc));
    }
    share_text(alloc, "next below", letters, words, e, elements)
}

/// The lines of the idempotent e.
fn lines_of(
    alloc: Global,
    table: &Table,
    letters: u8,
    words: &[Word],
    listing: &[u16],
    e: u16,
) -> Result<String, Memory>
    requires letters { letters ≤ LETTERS }
    requires words { length words.now ≡ table.now.order }
    requires listing { All (λ x. x < table.now.order) listing.now }
    requires e_in { e < table.now.order }
    requires idempotent { IsIdempotent table.now e }
    ensures { IfOk result
        (λ t. AreLinesOf table.now letters words.now listing.now e (string_bytes t)) }
{
    let members = belonging(alloc, table, e, Share::Component, listing)?;
    let group = belonging(alloc, table, e, Share::Group, listing)?;
    let below = belonging(alloc, table, e, Share::NextBelow, listing)?;
    let component = share_text(alloc, "component", letters, words, e, &members)?;
    let group = share_text(alloc, "group", letters, words, e, &group)?;
    let below = below_text(alloc, letters, words, e, &below)?;
    let text = all_three(alloc, component.as_str(), group.as_str(), below.as_str())?;
    Ok(text)
}

/// The lines of each of these idempotents.
fn lines_text(
    alloc: Global,
    table: &Table,
    letters: u8,
    words: &[Word],
    listing: &[u16],
    idempotents: &[u16],
) -> Result<String, Memory>
    requires letters { letters ≤ LETTERS }
    requires words { length words.now ≡ table.now.order }
    requires listing { All (λ x. x < table.now.order) listing.now }
    requires within { All (λ e. e < table.now.order) idempotents.now }
    requires idempotents { All (IsIdempotent table.now) idempotents.now }
    ensures { IfOk result
        (λ t. AreLines table.now letters words.now listing.now idempotents.now (string_bytes t)) }
{
    let mut text = String::new(alloc);
    for e in idempotents {
        let more = lines_of(alloc, table, letters, words, listing, *e)?;
        text.push_str(more.as_str())?;
    }
    Ok(text)
}

/// The quotient and the lines of two lists, of their texts.
fn head_pieces(alloc: Global, title: &str, first: &str, second: &str) -> Result<String, AllocError>
    ensures { IfOk result
        (λ t. string_bytes t ≡ title.now ++ codes "\n" ++ first.now ++ second.now) }
{
    let text = format!(in alloc; "{title}\n{first}{second}")?;
    Ok(text)
}

/// The lines before those of each idempotent: the quotient, its idempotents and its kernel.
fn head_text(
    alloc: Global,
    cert: &Cert,
    letters: u8,
    words: &[Word],
    idempotents: &[u16],
    kernel: &[u16],
) -> Result<String, Memory>
    requires letters { letters ≤ LETTERS }
    requires idempotents { All (λ x. x < length words.now) idempotents.now }
    requires kernel { All (λ x. x < length words.now) kernel.now }
    ensures { IfOk result (λ t. string_bytes t
        ≡ structure_head cert.now letters words.now idempotents.now kernel.now) }
{
    let title = title_text(alloc, cert)?;
    let first = list_text(
        alloc,
        Notation::Plain,
        "idempotents",
        letters,
        words,
        idempotents,
    )?;
    let second = list_text(alloc, Notation::Plain, "kernel", letters, words, kernel)?;
    let text = head_pieces(alloc, title.as_str(), first.as_str(), second.as_str())?;
    Ok(text)
}

/// The structure in the words of the description.
fn parts_text(
    alloc: Global,
    certified: &Certified,
    table: &Table,
    description: &Description,
) -> Result<String, Memory>
    requires table { table.now ≡ grid_of certified.now }
    requires describes { Describes certified.now Basis description.now.elements.items
        description.now.relations.items description.now.words.items description.now.listing.items }
    requires words { vec_len description.now.words ≡ certified.now.order }
    ensures { IfOk result (λ t. IsStructure certified.now (string_bytes t)) }
{
    let letters = description.elements.len() as u8;
    let words = description.words.as_slice();
    let listing = description.listing.as_slice();
    let low = lowest(table);
    let idempotents = those(alloc, certified, table, low, Part::Idempotents, listing)?;
    let kernel = those(alloc, certified, table, low, Part::Kernel, listing)?;
    let head = head_text(
        alloc,
        certified.cert(),
        letters,
        words,
        &idempotents,
        &kernel,
    )?;
    let parts = lines_text(alloc, table, letters, words, listing, &idempotents)?;
    let text = both(alloc, head.as_str(), parts.as_str())?;
    Ok(text)
}

/// The structure of the certified quotient by its idempotents: of each the archimedean component, the
/// maximal subgroup, and the idempotents that it covers; and the kernel, all in the words of a description.
/// Where the quotient isn't described, it tells the bound that the search for relations met.
pub fn structure_text(alloc: Global, certified: &Certified) -> Result<String, Undescribed>
    ensures { IfOk result (λ t. IsStructure certified.now (string_bytes t)) }
{
    let table = table_of(alloc, certified)?;
    let description = describe_table(alloc, certified, &table, Form::Basis)?;
    let text = parts_text(alloc, certified, &table, &description)?;
    Ok(text)
}
