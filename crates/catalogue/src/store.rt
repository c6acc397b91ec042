//! Catalogues in memory.
ghost use Rattle.std.specs.Prelude.{◌≡◌, ◌↔◌, [], ◌∷◌, ◌++◌, All, Contains, IfErr, IfSome, OnErr, OnOk, None, nat_eq};
ghost use Rattle.std.specs.Cmp.Lexicographic.{pointwise};
ghost use Rattle.std.specs.Map.{lookup};
ghost use Rattle.misere_theory.specs.Certificates.{Certificate, Accepted, kind_of};
ghost use Rattle.catalogue.specs.Entries.{HasEntry, HaveOtherKinds};

use crate::fault::AddFault;
use crate::key::{CodeAndKind, code_and_kind};
use checker::Certified;
use indexmap::IndexMap;
use misere_theory::certificates::accepted_certificates_are_unique;
use octal_code::Code;
use std::alloc::Global;
use std::marker::Model;

/// Certified quotients in the order in which they were added, one for a code and a kind.
#[derive(Drop)]
pub struct Catalogue {
    entries: IndexMap<CodeAndKind, Certified>,
}

impl Model for Catalogue {
    ghost use Rattle.std.specs.Prelude.{List};
    ghost use Rattle.std.specs.Map.{values_of};
    ghost use Rattle.misere_theory.specs.Certificates.{Certificate};
    ghost use Rattle.catalogue.specs.Keys.{AreKeyed};

    ghost Value = { List Certificate };

    ghost view = { λ s. values_of s.entries.entries };

    ghost invariant = { λ s. AreKeyed s.entries.entries };
}

/// Puts an entry behind the others, under a key that none of them has.
fn append(
    entries: &mut IndexMap<CodeAndKind, Certified>,
    key: CodeAndKind,
    certified: Certified,
) -> Result<(), AddFault>
    requires { lookup (pointwise nat_eq key) entries.old.entries ≡ None }
    ensures last { OnOk result (entries.new.entries ≡ entries.old.entries
        ++ (key, certified) ∷ []) }
    ensures unchanged { OnErr result (entries.new.entries ≡ entries.old.entries) }
    ensures memory { IfErr result (λ fault. fault ≡ AddFault.Memory) }
{
    match entries.insert(key, certified) {
        Ok(_) => Ok(()),
        Err(_) => Err(AddFault::Memory),
    }
}

impl Catalogue {
    /// A catalogue without entries. It takes no memory.
    pub fn new(alloc: Global) -> Catalogue
        ensures { result ≡ [] }
    {
        Catalogue {
            entries: IndexMap::new(alloc),
        }
    }

    /// The allocator that holds the entries.
    pub(crate) fn allocator(&self) -> Global {
        *self.entries.allocator()
    }

    /// Adds an entry behind the others. Where the code and the kind are there already, so is
    /// this very certificate. After a refusal nothing changed.
    pub fn add(&mut self, certified: Certified) -> Result<(), AddFault>
        ensures added { OnOk result (self.new ≡ self.old ++ certified ∷ []) }
        ensures present { (result ≡ Err AddFault.Present) ↔ HasEntry self.old certified.code (kind_of certified) }
        ensures same_certificate { result ≡ Err AddFault.Present → Contains self.old certified }
        ensures absent { OnOk result (HasEntry self.old certified.code (kind_of certified) → ⊥) }
        ensures unchanged { OnErr result (self.new ≡ self.old) }
    {
        if self
            .get(certified.cert().code(), certified.cert().heaps())
            .is_some()
        {
            accepted_certificates_are_unique();
            return Err(AddFault::Present);
        }
        self.push(certified)
    }

    /// Adds an entry of a code and a kind that aren't there.
    fn push(&mut self, certified: Certified) -> Result<(), AddFault>
        requires { HasEntry self.old certified.code (kind_of certified) → ⊥ }
        ensures added { OnOk result (self.new ≡ self.old ++ certified ∷ []) }
        ensures unchanged { OnErr result (self.new ≡ self.old) }
        ensures memory { IfErr result (λ fault. fault ≡ AddFault.Memory) }
    {
        let key = code_and_kind(certified.cert().code(), certified.cert().heaps());
        append(&mut self.entries, key, certified)
    }

    /// The entry of a code and a kind: 0 for the full certificate, and M for the partial one of the
    /// heaps up to M. It takes no memory.
    pub fn get(&self, code: &Code, heaps: u64) -> Option<&Certified>
        ensures some { IfSome result (λ found. Contains self.now found.now
            × (found.now.code ≡ code.now) × (kind_of found.now ≡ heaps) × Accepted found.now) }
        ensures none { (result ≡ None) ↔ (HasEntry self.now code.now heaps → ⊥) }
    {
        self.entries.get(&code_and_kind(code, heaps))
    }

    /// All entries, in the order in which they were added. It takes no memory.
    pub fn entries(&self) -> &[Certified]
        ensures all { result.now ≡ self.now }
        ensures accepted { All Accepted self.now }
        ensures kinds { HaveOtherKinds self.now }
    {
        self.entries.values().as_slice()
    }
}
