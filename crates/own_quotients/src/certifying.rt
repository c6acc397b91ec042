//! Tables, certified.
ghost use Rattle.std.specs.Prelude.{◌<◌, ℕ, IfErr, IfOk, OnOk};
ghost use Rattle.answers.specs.ByteVerdicts.{refused};
ghost use Rattle.own_quotients.specs.Tables.{IsIdentity, Own};
ghost use Rattle.own_quotients.specs.Certified.{HasCertified, IsFaultOf, IsNumberingOf, IsRefusedAs, PassesLaws};

use crate::draft::draft;
use crate::fault::CertifyFault;
use crate::numbering::{Numbering, numbering_in};
use crate::{OwnTable, alike, identity, not_associating, not_commuting, unreached};
use checker::{Certified, Refusal, check};
use std::alloc::Global;

/// A table that is certified.
#[derive(Drop)]
pub struct Numbered {
    /// The certificate's text.
    pub text: Vec<u8>,
    /// The quotient that it certifies.
    pub certified: Certified,
    /// The identity of the table.
    pub identity: u16,
    /// The number in the certificate of each element of the table.
    pub numbers: Vec<u16>,
    /// The element of the table of each number.
    pub elements: Vec<u16>,
}

/// The fault of which the check of a draft tells. What depends on how the draft numbers the table is none of
/// the table's: then there is no draft.
fn fault_by(refusal: Refusal) -> CertifyFault
    ensures { (o : Own) (limit : ℕ) → PassesLaws o → IsRefusedAs o limit (refused refusal)
        → IsFaultOf o limit result }
{
    match refusal {
        Refusal::Period => CertifyFault::Refused(Refusal::Period),
        Refusal::Outcome(code, position) => CertifyFault::Refused(Refusal::Outcome(code, position)),
        Refusal::Limit => CertifyFault::Refused(Refusal::Limit),
        Refusal::Memory => CertifyFault::Memory,
        _ => CertifyFault::NoDraft,
    }
}

/// Checks a draft that is the table in other numbers.
fn judged(
    alloc: Global,
    text: Vec<u8>,
    identity: u16,
    numbering: Numbering,
    limit: u32,
) -> Result<Numbered, CertifyFault>
    ensures certified { (o : Own)
        → IsNumberingOf o identity text.items numbering.numbers.items numbering.elements.items
        → IfOk result (λ n. HasCertified o n.text.items n.certified n.identity n.numbers.items n.elements.items) }
    ensures refused { (o : Own)
        → PassesLaws o
        → IsNumberingOf o identity text.items numbering.numbers.items numbering.elements.items
        → IfErr result (IsFaultOf o limit) }
{
    certificate_text::spellings_are_unique();
    let Numbering { numbers, elements } = numbering;
    match check(alloc, &text, limit) {
        Ok(certified) => Ok(Numbered {
            text,
            certified,
            identity,
            numbers,
            elements,
        }),
        Err(refusal) => Err(fault_by(refusal)),
    }
}

/// Checks a draft, if it is the table in other numbers.
fn compared(
    alloc: Global,
    table: &OwnTable,
    identity: u16,
    text: Vec<u8>,
    limit: u32,
) -> Result<Numbered, CertifyFault>
    requires identity_in { identity < table.now.order }
    requires laws { PassesLaws table.now }
    ensures certified { IfOk result (λ n. HasCertified table.now n.text.items n.certified n.identity n.numbers.items n.elements.items) }
    ensures refused { IfErr result (IsFaultOf table.now limit) }
{
    match numbering_in(alloc, table, identity, &text)? {
        Some(numbering) => judged(alloc, text, identity, numbering, limit),
        None => Err(CertifyFault::NoDraft),
    }
}

/// Looks for faults in the products and the portion: whether they are those of a commutative monoid,
/// whether positions have all elements, and whether something takes each two apart.
fn tried(alloc: Global, table: &OwnTable, identity: u16) -> Result<(), CertifyFault>
    requires identity_in { identity < table.now.order }
    requires is_identity { IsIdentity table.now identity }
    ensures laws { OnOk result (PassesLaws table.now) }
    ensures fault { IfErr result (λ fault. (limit : ℕ) → IsFaultOf table.now limit fault) }
{
    if let Some((x, y)) = not_commuting(table) {
        return Err(CertifyFault::NotCommuting(x, y));
    }
    if let Some(x) = unreached(alloc, table, identity)? {
        return Err(CertifyFault::Unreached(x));
    }
    if let Some((x, y, z)) = not_associating(table) {
        return Err(CertifyFault::NotAssociating(x, y, z));
    }
    if let Some((x, y)) = alike(alloc, table)? {
        return Err(CertifyFault::Alike(x, y));
    }
    Ok(())
}

/// Certifies the table: numbers its elements by least keys, and checks the certificate that this
/// makes, whose closure may keep so many members.
///
/// A certificate is accepted, and the table's elements, products, heaps and portion are those of the
/// certificate in other numbers. A refusal is true of the table, and is of the period, an outcome or the limit.
/// `NoDraft` says that no certificate was made though the products passed the laws: its text would be too long,
/// or the code has too many heaps.
pub fn certify(alloc: Global, table: &OwnTable, limit: u32) -> Result<Numbered, CertifyFault>
    ensures certified { IfOk result (λ n. HasCertified table.now n.text.items n.certified n.identity n.numbers.items n.elements.items) }
    ensures refused { IfErr result (IsFaultOf table.now limit) }
{
    let Some(identity) = identity(table) else {
        return Err(CertifyFault::NoIdentity);
    };
    match tried(alloc, table, identity) {
        Ok(()) => {}
        Err(fault) => return Err(fault),
    }
    match draft(alloc, table, identity)? {
        Some(text) => compared(alloc, table, identity, text, limit),
        None => Err(CertifyFault::NoDraft),
    }
}
