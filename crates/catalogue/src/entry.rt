//! One entry of a file: checked, and taken into the catalogue.
ghost use Rattle.std.specs.Prelude.{◌≡◌, List, IfErr, IfOk, OnErr, OnOk};
ghost use Rattle.std.specs.Str.{bytes_eq};
ghost use Rattle.octal_code.specs.Text.{code_text};
ghost use Rattle.misere_theory.specs.Certificates.{Certificate};
ghost use Rattle.catalogue.specs.Files.{written};
ghost use Rattle.catalogue.specs.Loads.{IsCertified};
ghost use Rattle.catalogue.specs.LoadSteps.{IsFaultOrMemory, IsTaken};

use crate::fault::{AddFault, LoadFault};
use crate::file::Texts;
use crate::store::Catalogue;
use allocation::Memory;
use checker::{Certified, Refusal, check};
use octal_code::Code;
use std::alloc::Global;

/// Whether the text is that of the code.
fn is_text_of(alloc: Global, text: &str, code: &Code) -> Result<bool, Memory>
    ensures { IfOk result (λ same. same ≡ bytes_eq (code_text code.now) text.now) }
{
    let own = code.text(alloc)?;
    Ok(own.as_str() == text)
}

/// Checks the entry at this place.
fn certified(
    alloc: Global,
    entry: &Texts<'_>,
    place: usize,
    limit: u32,
) -> Result<Certified, LoadFault>
    ensures ok { IfOk result (IsCertified limit (written entry.now)) }
    ensures err { IfErr result (λ fault. (cs : List Certificate)
        → IsFaultOrMemory limit cs place (written entry.now) fault) }
{
    match check(alloc, entry.certificate.as_bytes(), limit) {
        Ok(certified) => {
            let same = is_text_of(alloc, entry.code, certified.cert().code())?;
            if !same {
                Err(LoadFault::Code(place))
            } else if certified.cert().heaps() == entry.heaps() {
                Ok(certified)
            } else {
                Err(LoadFault::Heaps(place))
            }
        }
        Err(Refusal::Memory) => Err(LoadFault::Memory),
        Err(refusal) => Err(LoadFault::Entry(place, refusal)),
    }
}

impl Catalogue {
    /// Takes the entry at this place, behind the others. After a fault nothing changed.
    pub(crate) fn take(
        &mut self,
        alloc: Global,
        entry: &Texts<'_>,
        place: usize,
        limit: u32,
    ) -> Result<(), LoadFault>
        ensures taken { OnOk result (IsTaken limit self.old (written entry.now) self.new) }
        ensures fault { IfErr result (IsFaultOrMemory limit self.old place (written entry.now)) }
        ensures unchanged { OnErr result (self.new ≡ self.old) }
    {
        let certified = certified(alloc, entry, place, limit)?;
        match self.add(certified) {
            Ok(()) => Ok(()),
            Err(AddFault::Present) => Err(LoadFault::Twice(place)),
            Err(AddFault::Memory) => Err(LoadFault::Memory),
        }
    }
}
