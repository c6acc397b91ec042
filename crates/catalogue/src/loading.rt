//! Catalogues from bytes.
ghost use Rattle.std.specs.Prelude.{List, ℕ, map};
ghost use Rattle.catalogue.specs.Files.{written};
ghost use Rattle.catalogue.specs.Loads.{Holds, IsLoaded};

use crate::fault::LoadFault;
use crate::file::{Texts, entries_of};
use crate::store::Catalogue;
use json::Scratch;
use std::alloc::Global;

/// The catalogue of the entries of a file.
fn catalogue_of(alloc: Global, entries: &[Texts<'_>], limit: u32) -> Result<Catalogue, LoadFault>
    ensures { (bytes : List ℕ) → Holds bytes (map written entries.now)
        → IsLoaded bytes limit result }
{
    let mut catalogue = Catalogue::new(alloc);
    for (at, entry) in entries.iter().enumerate() {
        catalogue.take(alloc, entry, at + 1, limit)?;
    }
    Ok(catalogue)
}

impl Catalogue {
    /// Loads a catalogue file. Every entry is checked anew, by `limit`, and none is believed.
    ///
    /// The faults in their order: the bytes are no JSON; the value is no catalogue file; then the
    /// first entry at fault, and its first fault: its certificate is refused, the code isn't that
    /// of its certificate, the heaps aren't, an earlier entry has the code and the kind. An entry
    /// of a file of version 1 names no heaps, and stands as if it named 0.
    pub fn load(alloc: Global, bytes: &[u8], limit: u32) -> Result<Catalogue, LoadFault>
        ensures { IsLoaded bytes.now limit result }
    {
        let mut scratch = Scratch::new(alloc);
        match entries_of(alloc, bytes, &mut scratch) {
            Ok(entries) => catalogue_of(alloc, &entries, limit),
            Err(fault) => Err(fault),
        }
    }
}
