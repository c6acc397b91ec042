//! One owner of an accepted certificate.
ghost use Rattle.std.specs.Prelude.{◌≡◌, IfOk};
ghost use Rattle.misere_theory.specs.Certificates.{Accepted};

use allocation::Memory;
use answers::Certified;
use std::alloc::Global;
use std::marker::Model;
use std::sync::Arc;

/// One owner of an accepted certificate. The last that is dropped frees it.
#[derive(Drop)]
pub struct Quotient {
    certified: Arc<Certified>,
}

impl Model for Quotient {
    ghost use Rattle.misere_theory.specs.Certificates.{Certificate};

    ghost Value = { Certificate };

    ghost view = { λ q. q.certified.value };
}

impl Quotient {
    /// The first owner of a certificate.
    pub fn new(alloc: Global, certified: Certified) -> Result<Quotient, Memory>
        ensures { IfOk result (λ q. q ≡ certified) }
    {
        let certified = Arc::new(alloc, certified)?;
        Ok(Quotient { certified })
    }

    /// The certificate.
    pub fn certified(&self) -> &Certified
        ensures { result.now ≡ self.now }
    {
        &self.certified
    }

    /// One more owner of the same certificate.
    pub fn shared(&self) -> Result<Quotient, Memory>
        ensures { IfOk result (λ q. q ≡ self.now) }
    {
        let certified = Arc::try_clone(&self.certified)?;
        Ok(Quotient { certified })
    }
}
