//! What is compared of a quotient.
ghost use Rattle.std.specs.Prelude.{◌≡◌, IfOk, IfSome, Some, None};
ghost use Rattle.own_quotients.specs.Same.{IsCertificateOf};
ghost use Rattle.given_quotients.specs.declared.giving.Quotient.TheVariants.{Presented};
ghost use Rattle.description_commands.specs.Operands.{IsOperandOf};

use allocation::Memory;
use answers::Certified;
use given_quotients::Quotient;
use own_quotients::certified_presentation;
use presented_checker::PresentedQuotient;
use std::alloc::Global;

/// What is compared of a quotient.
#[derive(Drop)]
pub enum Operand {
    /// The certificate of a finite one.
    Certificate(Certified),
    /// That it is infinite; and its presentation, if it has one.
    Endless(Option<PresentedQuotient>),
    /// That it is a finite one that is presented, of which no certificate was made.
    Unmade,
}

/// What is compared of a finite quotient that is presented.
fn finite_operand(
    alloc: Global,
    quotient: &PresentedQuotient,
    limit: u32,
) -> Result<Operand, Memory>
    requires { quotient.now.order ≡ None → ⊥ }
    ensures { IfOk result (IsOperandOf (Presented quotient.now)) }
{
    match certified_presentation(alloc, quotient, limit)? {
        Some(certified) => Ok(Operand::Certificate(certified)),
        None => Ok(Operand::Unmade),
    }
}

/// What is compared of a quotient that is presented.
fn presented_operand(
    alloc: Global,
    quotient: PresentedQuotient,
    limit: u32,
) -> Result<Operand, Memory>
    ensures { IfOk result (IsOperandOf (Presented quotient)) }
{
    match quotient.order() {
        Some(_) => finite_operand(alloc, &quotient, limit),
        None => Ok(Operand::Endless(Some(quotient))),
    }
}

/// What is compared of the quotient, where a check of a certificate may keep so many pairs.
pub(crate) fn operand_of(alloc: Global, quotient: Quotient, limit: u32) -> Result<Operand, Memory>
    ensures { IfOk result (IsOperandOf quotient) }
{
    match quotient {
        Quotient::Finite(certified) => Ok(Operand::Certificate(certified)),
        Quotient::Whole(_) => Ok(Operand::Endless(None)),
        Quotient::Presented(presented) => presented_operand(alloc, presented, limit),
    }
}
