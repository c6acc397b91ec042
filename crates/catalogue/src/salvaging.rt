//! What can be kept of a damaged catalogue file.
ghost use Rattle.std.specs.Prelude.{◌≡◌, ◌≢◌, [], ◌∷◌, ◌++◌, IfErr, OnOk};
ghost use Rattle.catalogue.specs.Salvages.{IsSalvaged};

use crate::fault::LoadFault;
use crate::file::entries_of;
use crate::store::Catalogue;
use json::Scratch;
use std::alloc::Global;

/// Lists the fault of an entry. Want of memory is none.
fn list(faults: &mut Vec<LoadFault>, fault: LoadFault) -> Result<(), LoadFault>
    ensures listed { OnOk result (faults.new.items ≡ faults.old.items ++ fault ∷ []) }
    ensures entry { OnOk result (fault ≢ LoadFault.Memory) }
    ensures memory { IfErr result (λ refused. refused ≡ LoadFault.Memory) }
{
    match fault {
        LoadFault::Memory => Err(LoadFault::Memory),
        fault => match faults.push(fault) {
            Ok(()) => Ok(()),
            Err(_) => Err(LoadFault::Memory),
        },
    }
}

impl Catalogue {
    /// Keeps the entries of a catalogue file that are certified anew, by `limit`, and whose code
    /// and kind no entry kept before has, and lists the first fault of each other entry, both in
    /// the order of the entries. No entry is believed.
    ///
    /// Refused as by `load` are bytes that are no JSON, values that are no catalogue file, and want
    /// of memory.
    pub fn salvage(
        alloc: Global,
        bytes: &[u8],
        limit: u32,
    ) -> Result<(Catalogue, Vec<LoadFault>), LoadFault>
        ensures { IsSalvaged bytes.now limit result }
    {
        let mut scratch = Scratch::new(alloc);
        let entries = entries_of(alloc, bytes, &mut scratch)?;
        let mut catalogue = Catalogue::new(alloc);
        let mut faults = Vec::new(alloc);
        for (at, entry) in entries.iter().enumerate() {
            match catalogue.take(alloc, entry, at + 1, limit) {
                Ok(()) => {}
                Err(fault) => list(&mut faults, fault)?,
            }
        }
        Ok((catalogue, faults))
    }
}
