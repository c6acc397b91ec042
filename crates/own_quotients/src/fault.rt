//! Why a table isn't certified.
ghost use Rattle.std.specs.Prelude.{◌≡◌};
ghost use Rattle.own_quotients.specs.declared.fault.CertifyFault.TheVariants.{Memory as OutOfMemory};

use allocation::Memory;
use checker::Refusal;
use std::alloc::AllocError;

/// Why a table isn't certified. The elements are those of the table.
#[derive(Drop)]
pub enum CertifyFault {
    /// No element is an identity.
    NoIdentity,
    /// Two elements that have two products.
    NotCommuting(u16, u16),
    /// An element that no position has.
    Unreached(u16),
    /// Three elements x, y and z for which (xy)z isn't x(yz).
    NotAssociating(u16, u16, u16),
    /// Two elements that nothing takes apart.
    Alike(u16, u16),
    /// The check refuses the certificate that the table is in other numbers.
    Refused(Refusal),
    /// No certificate was made of the table.
    NoDraft,
    /// A growth was refused.
    Memory,
}

impl From<AllocError> for CertifyFault {
    ghost from_gives = { λ _ e. e ≡ OutOfMemory };

    fn from(_: AllocError) -> CertifyFault {
        CertifyFault::Memory
    }
}

impl From<Memory> for CertifyFault {
    ghost from_gives = { λ _ e. e ≡ OutOfMemory };

    fn from(_: Memory) -> CertifyFault {
        CertifyFault::Memory
    }
}
