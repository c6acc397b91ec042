//! The ideal of a quotient's relations, for Singular and GAP.
ghost use Rattle.std.specs.Prelude.{◌≡◌, ◌<◌, ◌≤◌, IfOk};
ghost use Rattle.std.specs.String.{string_bytes};
ghost use Rattle.presentations.specs.declared.TheConstants.{LETTERS};
ghost use Rattle.descriptions.specs.Systems.{indeterminate_text, indeterminates_text, monomial_text, more_polynomials, polynomial_text, polynomials_text, sign_between, signed_factors, system_text, title_text, variable_text, variables_text};

use crate::lines::index_text;
use allocation::Memory;
use certificate::Cert;
use presentations::{Relation, Word};
use relations::{Notation, factor_text};
use std::alloc::{AllocError, Global};

/// A system for computer algebra.
#[derive(Clone, Copy, Debug, PartialEq, Eq)]
pub enum System {
    Singular,
    Gap,
}

/// A sign, if factors stand on both sides of it.
fn sign_between(left: &str, right: &str) -> &'static str
    ensures { result.now ≡ sign_between left.now right.now }
{
    if left.len() == 0 || right.len() == 0 {
        ""
    } else {
        "*"
    }
}

/// The factors of the first letters with a sign between each two.
fn signed_factors(alloc: Global, letters: u8, word: &Word) -> Result<String, AllocError>
    requires { letters ≤ LETTERS }
    ensures { IfOk result (λ t. string_bytes t ≡ signed_factors letters word.now) }
{
    let mut text = String::new(alloc);
    for letter in 0..letters {
        let factor = factor_text(alloc, Notation::Plain, letter, word[letter as usize])?;
        let sign = sign_between(text.as_str(), factor.as_str());
        text.push_str(sign)?;
        text.push_str(factor.as_str())?;
    }
    Ok(text)
}

/// A word as a monomial.
fn monomial_text(alloc: Global, letters: u8, word: &Word) -> Result<String, AllocError>
    requires { letters ≤ LETTERS }
    ensures { IfOk result (λ t. string_bytes t ≡ monomial_text letters word.now) }
{
    let text = signed_factors(alloc, letters, word)?;
    if text.len() == 0 {
        let one = format!(in alloc; "1")?;
        return Ok(one);
    }
    Ok(text)
}

/// A relation as the difference of its words.
fn polynomial_text(alloc: Global, letters: u8, r: &Relation) -> Result<String, AllocError>
    requires { letters ≤ LETTERS }
    ensures { IfOk result (λ t. string_bytes t ≡ polynomial_text letters r.now) }
{
    let (left, right) = (
        monomial_text(alloc, letters, &r.left)?,
        monomial_text(alloc, letters, &r.right)?,
    );
    let text = format!(in alloc; "{left}-{right}")?;
    Ok(text)
}

/// A comma before each polynomial.
fn more_polynomials(
    alloc: Global,
    letters: u8,
    relations: &[Relation],
) -> Result<String, AllocError>
    requires { letters ≤ LETTERS }
    ensures { IfOk result (λ t. string_bytes t ≡ more_polynomials letters relations.now) }
{
    let mut text = String::new(alloc);
    for relation in relations {
        let line = polynomial_text(alloc, letters, relation)?;
        text.push_str(",\n  ")?;
        text.push_str(line.as_str())?;
    }
    Ok(text)
}

/// A line for each polynomial.
fn polynomials_text(
    alloc: Global,
    letters: u8,
    relations: &[Relation],
) -> Result<String, AllocError>
    requires { letters ≤ LETTERS }
    ensures { IfOk result (λ t. string_bytes t ≡ polynomials_text letters relations.now) }
{
    if relations.len() == 0 {
        return Ok(String::new(alloc));
    }
    let mut text = polynomial_text(alloc, letters, &relations[0])?;
    let more = more_polynomials(alloc, letters, &relations[1..])?;
    text.push_str(more.as_str())?;
    Ok(text)
}

/// Letter number k of these from the last on.
fn variable_text(alloc: Global, letters: u8, k: u8) -> Result<String, AllocError>
    requires letters { letters ≤ LETTERS }
    requires within { k < letters }
    ensures { IfOk result (λ t. string_bytes t ≡ variable_text letters k) }
{
    let name = (b'a' + (letters - 1 - k)) as char;
    if k == 0 {
        let text = format!(in alloc; "{name}")?;
        return Ok(text);
    }
    let text = format!(in alloc; ",{name}")?;
    Ok(text)
}

/// The letters from the last on.
fn variables_text(alloc: Global, letters: u8) -> Result<String, AllocError>
    requires { letters ≤ LETTERS }
    ensures { IfOk result (λ t. string_bytes t ≡ variables_text letters letters) }
{
    let mut text = String::new(alloc);
    for k in 0..letters {
        let more = variable_text(alloc, letters, k)?;
        text.push_str(more.as_str())?;
    }
    Ok(text)
}

/// The same letter, as GAP makes a new one.
fn indeterminate_text(alloc: Global, letters: u8, k: u8) -> Result<String, AllocError>
    requires letters { letters ≤ LETTERS }
    requires within { k < letters }
    ensures { IfOk result (λ t. string_bytes t ≡ indeterminate_text letters k) }
{
    let name = (b'a' + (letters - 1 - k)) as char;
    let text = format!(in alloc;
        "{name} := Indeterminate(Rationals, \"{name}\" : new);;
"
    )?;
    Ok(text)
}

/// The letters of GAP from the last on, since its ordering goes by when each was made.
fn indeterminates_text(alloc: Global, letters: u8) -> Result<String, AllocError>
    requires { letters ≤ LETTERS }
    ensures { IfOk result (λ t. string_bytes t ≡ indeterminates_text letters letters) }
{
    let mut text = String::new(alloc);
    for k in 0..letters {
        let more = indeterminate_text(alloc, letters, k)?;
        text.push_str(more.as_str())?;
    }
    Ok(text)
}

/// The quotient and how many elements it has.
pub fn title_text(alloc: Global, cert: &Cert) -> Result<String, Memory>
    ensures { IfOk result (λ t. string_bytes t ≡ title_text cert.now) }
{
    let index = index_text(alloc, Notation::Plain, cert)?;
    let code = cert.code().text(alloc)?;
    let order = cert.order();
    let text = format!(in alloc; "Q{index}({code}), of order {order}")?;
    Ok(text)
}

/// The ideal of the relations, with the ordering in which the reduced basis of the relations is a
/// reduced Gröbner basis.
pub fn system_text(
    alloc: Global,
    system: System,
    cert: &Cert,
    letters: u8,
    relations: &[Relation],
) -> Result<String, Memory>
    requires { letters ≤ LETTERS }
    ensures { IfOk result
        (λ t. string_bytes t ≡ system_text system cert.now letters relations.now) }
{
    let title = title_text(alloc, cert)?;
    let variables = variables_text(alloc, letters)?;
    let polynomials = polynomials_text(alloc, letters, relations)?;
    match system {
        System::Singular => {
            let text = format!(in alloc;
                "// {title}: vdim(std(I))\nring R = 0,({variables}),dp;\nideal I =\n  {polynomials};\n"
            )?;
            Ok(text)
        }
        System::Gap => {
            let letters = indeterminates_text(alloc, letters)?;
            let text = format!(in alloc;
                "# {title}: ReducedGroebnerBasis(I, O)\n{letters}I := [\n  {polynomials}];;\nO := MonomialGrevlexOrdering({variables});;\n"
            )?;
            Ok(text)
        }
    }
}
