//! The description of a certified quotient.
ghost use Rattle.std.specs.Prelude.{◌≡◌, ◌≤◌, ◌⊎◌, IfOk, IfErr, None, Some};
ghost use Rattle.std.specs.String.{string_bytes};
ghost use Rattle.descriptions.specs.Described.{IsDescription, IsIdealText};
ghost use Rattle.descriptions.specs.declared.presenting.PresentBound.{PresentBound};
ghost use Rattle.solve_library.specs.Found.{IsNotDescribed, IsTextFor, IsTextOf, IsUntold, IsUntoldOf, form_at};
ghost use Rattle.solve_library.specs.declared.causes.Untold.TheVariants.{Beyond, NotInRange};

use crate::causes::Untold;
use crate::handing::Told;
use answers::Certified;
use checker::check;
use descriptions::{
    Form, Notation, RelationsWord, System, description_text, ideal_text, relations_word,
};
use std::alloc::Global;

/// The word, where `present` takes it.
fn taken(found: RelationsWord) -> Result<String, Untold>
    ensures word { IfOk result (λ t. (t ≡ found.word) × (found.beyond ≡ None)) }
    ensures why { IfErr result
        (λ u. (b : PresentBound) × (u ≡ Beyond b) × (found.beyond ≡ Some b)) }
{
    match found.beyond {
        None => Ok(found.word),
        Some(bound) => Err(Untold::Beyond(bound)),
    }
}

/// The relations of the quotient, as one word that `present` takes.
fn presentable(alloc: Global, certified: &Certified, form: Form) -> Result<String, Untold>
    ensures told { IfOk result
        (λ t. IsTextFor 2 form certified.now (string_bytes t)) }
    ensures why { IfErr result (IsUntoldOf 2 form certified.now) }
{
    match relations_word(alloc, certified, form) {
        Ok(found) => taken(found),
        Err(fault) => Err(Untold::NotDescribed(fault)),
    }
}

/// The description of the quotient.
fn written(
    alloc: Global,
    certified: &Certified,
    notation: Notation,
    form: Form,
) -> Result<String, Untold>
    ensures told { IfOk result (λ t. IsDescription notation form certified.now (string_bytes t)) }
    ensures why { IfErr result IsNotDescribed }
{
    match description_text(alloc, notation, certified, form) {
        Ok(text) => Ok(text),
        Err(fault) => Err(Untold::NotDescribed(fault)),
    }
}

/// The ideal of the quotient's relations.
fn computed(
    alloc: Global,
    certified: &Certified,
    system: System,
    form: Form,
) -> Result<String, Untold>
    ensures told { IfOk result (λ t. IsIdealText system form certified.now (string_bytes t)) }
    ensures why { IfErr result IsNotDescribed }
{
    match ideal_text(alloc, system, certified, form) {
        Ok(text) => Ok(text),
        Err(fault) => Err(Untold::NotDescribed(fault)),
    }
}

/// The text that is asked for of the quotient.
fn text_for(alloc: Global, certified: &Certified, output: u32, form: Form) -> Result<String, Untold>
    ensures told { IfOk result
        (λ t. IsTextFor output form certified.now (string_bytes t)) }
    ensures why { IfErr result (IsUntoldOf output form certified.now) }
{
    match output {
        0 => written(alloc, certified, Notation::Plain, form),
        1 => written(alloc, certified, Notation::Latex, form),
        2 => presentable(alloc, certified, form),
        3 => written(alloc, certified, Notation::Json, form),
        4 => computed(alloc, certified, System::Singular, form),
        5 => computed(alloc, certified, System::Gap, form),
        _ => Err(Untold::NotInRange),
    }
}

/// The form of relations of this number.
fn form_at(form: u32) -> Form
    ensures { result ≡ form_at form }
{
    if form == 0 { Form::Short } else { Form::Basis }
}

/// The text that is asked for of the quotient in the form of this number.
pub(crate) fn text_by(
    alloc: Global,
    certified: &Certified,
    output: u32,
    form: u32,
) -> Result<Told, Untold>
    ensures told { IfOk result
        (λ it. (it.status ≡ 0) × IsTextFor output (form_at form) certified.now it.text.items) }
    ensures why { IfErr result (λ u. ((u ≡ NotInRange) × (2 ≤ form))
        ⊎ IsUntoldOf output (form_at form) certified.now u) }
{
    if form > 1 {
        return Err(Untold::NotInRange);
    }
    let text = text_for(alloc, certified, output, form_at(form))?;
    Ok(Told {
        status: 0,
        text: text.into_bytes(),
    })
}

/// The text that is asked for of the quotient that the bytes certify.
pub(crate) fn described(
    alloc: Global,
    bytes: &[u8],
    limit: u32,
    output: u32,
    form: u32,
) -> Result<Told, Untold>
    ensures told { IfOk result
        (λ it. (it.status ≡ 0) × IsTextOf bytes.now limit output form it.text.items) }
    ensures why { IfErr result (IsUntold bytes.now limit output form) }
{
    if form > 1 {
        return Err(Untold::NotInRange);
    }
    match check(alloc, bytes, limit) {
        Ok(certified) => text_by(alloc, &certified, output, form),
        Err(refusal) => Err(Untold::Refused(refusal)),
    }
}
