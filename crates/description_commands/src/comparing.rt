//! The comparison of the quotients of two files.
ghost use Rattle.std.specs.Prelude.{◌≡◌, ◌⊎◌, ◌++◌, ◌||◌, codes, true, false, IfOk, IfErr, Some, is_none, is_some, option_map};
ghost use Rattle.given_quotients.specs.Checks.{AreGiven, IsGivenCause, failed};
ghost use Rattle.description_commands.specs.Compared.{Compares, ComparesBeside, IsAccepted, IsCompareCause, SaysFound, SaysOf, SaysOfEndless, SaysOfOperands, left_behind};
ghost use Rattle.description_commands.specs.declared.operands.Operand.TheVariants.{Certificate, Endless, Unmade};

use crate::alike::are_alike;
use crate::operands::{Operand, operand_of};
use crate::texts::{
    ALIKE, ENDLESS, FIRST_ENDLESS, SECOND_ENDLESS, UNDECIDED, UNMADE, difference_text,
    gave_up_text, same_text,
};
use allocation::Memory;
use answers::Certified;
use command_results::{Said, Stop};
use given_quotients::{Quotient, quotient_of};
use isomorphisms::{Comparison, compared};
use presented_checker::PresentedQuotient;
use std::alloc::{AllocError, Global};
use streams::{Folder, Source};

/// The most lists of images that a comparison tries.
pub const MOST_LISTS: u64 = 100_000;

/// Whether the two quotients are isomorphic.
fn said_of(alloc: Global, a: &Certified, b: &Certified) -> Result<Said, Memory>
    ensures { IfOk result (λ s. SaysOf a.now b.now s.text.items s.succeeds) }
{
    match compared(alloc, a, b, MOST_LISTS)? {
        Comparison::Same(map) => Ok(Said::done(same_text(alloc, map.as_slice())?)),
        Comparison::Different(why) => {
            Ok(Said::no(difference_text(alloc, a, b, why)?.into_bytes()))
        }
        Comparison::Long => Ok(Said::no(gave_up_text(alloc)?.into_bytes())),
    }
}

/// A line of a no.
fn no_line(alloc: Global, line: &str) -> Result<Said, AllocError>
    ensures text { IfOk result (λ s. s.text.items ≡ line.now) }
    ensures succeeds { IfOk result (λ s. s.succeeds ≡ false) }
{
    let text = String::from_str(alloc, line)?;
    Ok(Said::no(text.into_bytes()))
}

/// What is said of a finite quotient and another one.
fn beside_certificate(alloc: Global, a: &Certified, b: &Operand) -> Result<Said, Memory>
    ensures { IfOk result (λ s. SaysOfOperands (Certificate a.now) b.now s.text.items s.succeeds) }
{
    match b {
        Operand::Certificate(b) => said_of(alloc, a, b),
        Operand::Endless(_) => Ok(no_line(alloc, SECOND_ENDLESS)?),
        Operand::Unmade => Ok(no_line(alloc, UNMADE)?),
    }
}

/// A line of a yes.
fn yes_line(alloc: Global, line: &str) -> Result<Said, AllocError>
    ensures text { IfOk result (λ s. s.text.items ≡ line.now) }
    ensures succeeds { IfOk result (λ s. s.succeeds ≡ true) }
{
    let text = String::from_str(alloc, line)?;
    Ok(Said::done(text))
}

/// What is said of two infinite quotients that are presented.
fn said_of_presented(
    alloc: Global,
    a: &PresentedQuotient,
    b: &PresentedQuotient,
) -> Result<Said, AllocError>
    ensures { IfOk result (λ s. SaysOfEndless (Some a.now) (Some b.now) s.text.items s.succeeds) }
{
    if are_alike(a.said(), b.said()) {
        yes_line(alloc, ALIKE)
    } else {
        no_line(alloc, UNDECIDED)
    }
}

/// What is said of two infinite quotients.
fn said_of_endless(
    alloc: Global,
    a: &Option<PresentedQuotient>,
    b: &Option<PresentedQuotient>,
) -> Result<Said, AllocError>
    ensures { IfOk result (λ s. SaysOfEndless a.now b.now s.text.items s.succeeds) }
{
    let Some(one) = a else {
        return no_line(alloc, ENDLESS);
    };
    match b {
        Some(other) => said_of_presented(alloc, one, other),
        None => no_line(alloc, ENDLESS),
    }
}

/// What is said of an infinite quotient and another one.
fn beside_endless(
    alloc: Global,
    a: &Option<PresentedQuotient>,
    b: &Operand,
) -> Result<Said, AllocError>
    ensures { IfOk result (λ s. SaysOfOperands (Endless a.now) b.now s.text.items s.succeeds) }
{
    match b {
        Operand::Certificate(_) => no_line(alloc, FIRST_ENDLESS),
        Operand::Endless(b) => said_of_endless(alloc, a, b),
        Operand::Unmade => no_line(alloc, FIRST_ENDLESS),
    }
}

/// What is said of a finite quotient without a certificate and another one.
fn beside_unmade(alloc: Global, b: &Operand) -> Result<Said, AllocError>
    ensures { IfOk result (λ s. SaysOfOperands Unmade b.now s.text.items s.succeeds) }
{
    match b {
        Operand::Certificate(_) => no_line(alloc, UNMADE),
        Operand::Endless(_) => no_line(alloc, SECOND_ENDLESS),
        Operand::Unmade => no_line(alloc, UNMADE),
    }
}

/// What is said of two quotients.
fn said_of_operands(alloc: Global, a: &Operand, b: &Operand) -> Result<Said, Memory>
    ensures { IfOk result (λ s. SaysOfOperands a.now b.now s.text.items s.succeeds) }
{
    match a {
        Operand::Certificate(a) => beside_certificate(alloc, a, b),
        Operand::Endless(a) => Ok(beside_endless(alloc, a, b)?),
        Operand::Unmade => Ok(beside_unmade(alloc, b)?),
    }
}

/// A no behind the word that says of which certificate it is.
fn no_of(alloc: Global, which: &str, no: &[u8]) -> Result<Said, AllocError>
    ensures text { IfOk result (λ s. s.text.items ≡ which.now ++ no.now) }
    ensures succeeds { IfOk result (λ s. s.succeeds ≡ false) }
{
    let mut text = Vec::with_capacity(alloc, no.len())?;
    text.extend_from_slice(which.as_bytes())?;
    text.extend_from_slice(no)?;
    Ok(Said::no(text))
}

/// What is said of the two quotients, of which the second was found, or why it wasn't.
fn said_beside(
    alloc: Global,
    a: &Operand,
    found: Result<Quotient, Vec<u8>>,
    limit: u32,
) -> Result<Said, Memory>
    ensures { IfOk result (λ s. SaysFound a.now found s.text.items s.succeeds) }
{
    match found {
        Ok(quotient) => {
            let b = operand_of(alloc, quotient, limit)?;
            said_of_operands(alloc, a, &b)
        }
        Err(no) => Ok(no_of(alloc, "second: ", &no)?),
    }
}

/// Compares the quotient with that which the second file gives.
fn compare_beside<'a, F: Folder, S: Source>(
    alloc: Global,
    a: &Operand,
    second: Option<&'a str>,
    limit: u32,
    folder: &mut F,
    input: &mut S,
) -> Result<Said, Stop<'a>>
    ensures compares { let named = option_map (λ f. f.now) second.entry in
        IfOk result (λ s. ComparesBeside a.now (AreGiven (S.left input.old) (F.files folder.old) named)
        limit s.text.items s.succeeds) }
    ensures kept { F.files folder.new ≡ F.files folder.old }
    ensures stops { IfErr result (IsGivenCause (option_map (λ f. f.now) second.entry)
        (failed (S.failures input.old) (F.failed_reads folder.old))
        (failed (S.failures input.new) (F.failed_reads folder.new))) }
    ensures input { is_none (option_map (λ f. f.now) second.entry) ≡ false → input.new ≡ input.old }
    ensures folder { is_some (option_map (λ f. f.now) second.entry) ≡ false
        → folder.new ≡ folder.old }
{
    let found = quotient_of(alloc, second, limit, folder, input)?;
    Ok(said_beside(alloc, a, found, limit)?)
}

/// Compares the quotients that the two files give under the limit, where one that isn't named is
/// on standard input: that they are isomorphic as bipartite monoids, with the image of each element
/// of the first; or that they aren't, and what tells them apart; or that there are more lists of
/// images than are tried; or why a text isn't accepted, the first one's no where both aren't. A finite quotient that is
/// presented is compared by the certificate of the same heaps, if one is made. Two infinite quotients are isomorphic if
/// their presentations are alike; else nothing is decided of them. That of a whole game by triples isn't compared.
pub fn compare<'a, F: Folder, S: Source>(
    alloc: Global,
    first: Option<&'a str>,
    second: Option<&'a str>,
    limit: u32,
    folder: &mut F,
    input: &mut S,
) -> Result<Said, Stop<'a>>
    ensures compares { let one = option_map (λ f. f.now) first.entry in
        let other = option_map (λ f. f.now) second.entry in
        IfOk result (λ s. Compares (AreGiven (S.left input.old) (F.files folder.old) one)
        (AreGiven (left_behind one (S.left input.old)) (F.files folder.old) other) limit
        s.text.items s.succeeds) }
    ensures kept { F.files folder.new ≡ F.files folder.old }
    ensures stops { IfErr result (IsCompareCause (option_map (λ f. f.now) first.entry)
        (option_map (λ f. f.now) second.entry)
        (failed (S.failures input.old) (F.failed_reads folder.old))
        (failed (S.failures input.new) (F.failed_reads folder.new))) }
    ensures order { let one = option_map (λ f. f.now) first.entry in
        IfErr result (λ stop. IsGivenCause one
        (failed (S.failures input.old) (F.failed_reads folder.old))
        (failed (S.failures input.new) (F.failed_reads folder.new)) stop
        ⊎ IsAccepted (AreGiven (S.left input.old) (F.files folder.old) one) limit) }
    ensures input { (is_none (option_map (λ f. f.now) first.entry)
        || is_none (option_map (λ f. f.now) second.entry)) ≡ false → input.new ≡ input.old }
    ensures folder { (is_some (option_map (λ f. f.now) first.entry)
        || is_some (option_map (λ f. f.now) second.entry)) ≡ false → folder.new ≡ folder.old }
{
    match quotient_of(alloc, first, limit, folder, input)? {
        Ok(quotient) => {
            let a = operand_of(alloc, quotient, limit)?;
            compare_beside(alloc, &a, second, limit, folder, input)
        }
        Err(no) => Ok(no_of(alloc, "first: ", &no)?),
    }
}
