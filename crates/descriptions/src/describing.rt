//! The text that describes a quotient.
ghost use Rattle.std.specs.Prelude.{◌≡◌, ◌<◌, ◌≤◌, IfOk, All, length, vec_len};
ghost use Rattle.std.specs.String.{string_bytes};
ghost use Rattle.presentations.specs.declared.TheConstants.{LETTERS};
ghost use Rattle.descriptions.specs.Described.{AreFindings, AreRows, IsDescription, IsIdealText};
ghost use Rattle.descriptions.specs.Lines.{front_lines, list_lines, lists_end};
ghost use Rattle.relations.specs.declared.text.Notation.TheVariants.{Json};

use crate::finding::{Findings, describe_table, find, table_of};
use crate::lines::{
    count_text, generators_text, head_text, index_text, list_text, portion_text, tail_text,
};
use crate::rows::{arrays_text, rows_text};
use crate::systems::{System, system_text};
use allocation::Memory;
use answers::Certified;
use presentations::Word;
use relations::{Form, Notation, Undescribed, words_text};
use std::alloc::{AllocError, Global};

/// What ends the lists.
fn lists_end(notation: Notation) -> &'static str
    ensures { result.now ≡ lists_end notation }
{
    match notation {
        Notation::Plain => "",
        Notation::Latex => "\n\\end{flushleft}\n",
        Notation::Json => "",
    }
}

/// The lines of the units, the idempotents and the kernel.
fn lists_text(
    alloc: Global,
    notation: Notation,
    letters: u8,
    findings: &Findings,
) -> Result<String, Memory>
    requires letters { letters ≤ LETTERS }
    requires units { All (λ e. e < vec_len findings.now.description.words)
        findings.now.units.items }
    requires idempotents { All (λ e. e < vec_len findings.now.description.words)
        findings.now.idempotents.items }
    requires kernel { All (λ e. e < vec_len findings.now.description.words)
        findings.now.kernel.items }
    ensures { IfOk result (λ t. string_bytes t
        ≡ list_lines notation findings.now.description.words.items findings.now.units.items
        findings.now.idempotents.items findings.now.kernel.items letters) }
{
    let words = findings.description.words.as_slice();
    let units = list_text(alloc, notation, "units", letters, words, &findings.units)?;
    let idempotents = list_text(
        alloc,
        notation,
        "idempotents",
        letters,
        words,
        &findings.idempotents,
    )?;
    let kernel = list_text(alloc, notation, "kernel", letters, words, &findings.kernel)?;
    let end = lists_end(notation);
    let text = format!(in alloc; "{units}{idempotents}{kernel}{end}")?;
    Ok(text)
}

/// The lines of the relations, the portion, the counts and the generators.
fn front_text(
    alloc: Global,
    notation: Notation,
    certified: &Certified,
    letters: u8,
    findings: &Findings,
) -> Result<String, Memory>
    requires letters { letters ≤ LETTERS }
    requires heaps { vec_len findings.now.heaps ≡ letters }
    requires portion { All (λ e. e < vec_len findings.now.description.words)
        findings.now.portion.items }
    ensures { IfOk result (λ t. string_bytes t
        ≡ front_lines notation certified.now findings.now.description.relations.items
        findings.now.description.words.items findings.now.portion.items findings.now.tame
        findings.now.heaps.items letters) }
{
    let (cert, words) = (certified.cert(), findings.description.words.as_slice());
    let index = index_text(alloc, notation, cert)?;
    let head = head_text(
        alloc,
        notation,
        cert,
        &index,
        letters,
        &findings.description.relations,
    )?;
    let portion = portion_text(
        alloc,
        notation,
        cert,
        &index,
        letters,
        words,
        &findings.portion,
    )?;
    let count = count_text(
        alloc,
        notation,
        cert,
        &index,
        findings.portion.len(),
        findings.tame,
    )?;
    let generators = generators_text(alloc, notation, &findings.heaps, letters)?;
    let text = format!(in alloc; "{head}{portion}{count}{generators}")?;
    Ok(text)
}

/// The heaps' words in a list.
fn words_list(
    alloc: Global,
    certified: &Certified,
    letters: u8,
    words: &[Word],
) -> Result<String, AllocError>
    requires letters { letters ≤ LETTERS }
    requires words { length words.now ≡ certified.now.order }
    ensures { IfOk result
        (λ t. AreRows Json certified.now letters words.now (string_bytes t)) }
{
    let cert = certified.cert();
    let list = words_text(
        alloc,
        Notation::Json,
        letters,
        ",",
        words,
        cert.phi().entries(),
    )?;
    let text = format!(in alloc; ",\"heaps\":[{list}]")?;
    Ok(text)
}

/// The heaps' words, in rows or in a list.
fn heaps_text(
    alloc: Global,
    notation: Notation,
    certified: &Certified,
    letters: u8,
    words: &[Word],
) -> Result<String, AllocError>
    requires letters { letters ≤ LETTERS }
    requires words { length words.now ≡ certified.now.order }
    ensures { IfOk result
        (λ t. AreRows notation certified.now letters words.now (string_bytes t)) }
{
    match notation {
        Notation::Plain => rows_text(alloc, certified, letters, words),
        Notation::Latex => arrays_text(alloc, certified, letters, words),
        Notation::Json => words_list(alloc, certified, letters, words),
    }
}

/// The text of what was found.
fn findings_text(
    alloc: Global,
    notation: Notation,
    certified: &Certified,
    form: Form,
    findings: &Findings,
) -> Result<String, Memory>
    requires { AreFindings certified.now form findings.now }
    ensures { IfOk result (λ t. IsDescription notation form certified.now (string_bytes t)) }
{
    let _ = form;
    let letters = findings.description.elements.len() as u8;
    let words = findings.description.words.as_slice();
    let front = front_text(alloc, notation, certified, letters, findings)?;
    let lists = lists_text(alloc, notation, letters, findings)?;
    let rows = heaps_text(alloc, notation, certified, letters, words)?;
    let tail = tail_text(alloc, notation, certified.cert())?;
    let text = format!(in alloc; "{front}{lists}{rows}{tail}")?;
    Ok(text)
}

/// The certified quotient as the literature prints it, plain or for LaTeX, or as one object of JSON:
/// its relations in this form, its portion, orders, generators, standard invariants, and the
/// pretending function in words.
/// Where it isn't described, it tells the bound that the search for relations met.
pub fn description_text(
    alloc: Global,
    notation: Notation,
    certified: &Certified,
    form: Form,
) -> Result<String, Undescribed>
    ensures { IfOk result (λ t. IsDescription notation form certified.now (string_bytes t)) }
{
    let findings = find(alloc, certified, form)?;
    let text = findings_text(alloc, notation, certified, form, &findings)?;
    Ok(text)
}

/// The ideal of the certified quotient's relations in this form, for Singular or GAP, with the
/// ordering in which the reduced basis of the relations is the reduced Gröbner basis.
/// Where the quotient isn't described, it tells the bound that the search for relations met.
pub fn ideal_text(
    alloc: Global,
    system: System,
    certified: &Certified,
    form: Form,
) -> Result<String, Undescribed>
    ensures { IfOk result (λ t. IsIdealText system form certified.now (string_bytes t)) }
{
    let table = table_of(alloc, certified)?;
    let description = describe_table(alloc, certified, &table, form)?;
    let letters = description.elements.len() as u8;
    let relations = description.relations.as_slice();
    let text = system_text(alloc, system, certified.cert(), letters, relations)?;
    Ok(text)
}
