//! What a catalogue file holds.
ghost use Rattle.std.specs.Prelude.{◌≡◌, map, IfErr, IfOk};
ghost use Rattle.catalogue.specs.Files.{heaps_named, written};
ghost use Rattle.catalogue.specs.Loads.{Holds};
ghost use Rattle.catalogue.specs.LoadSteps.{IsNoFile};

use crate::fault::LoadFault;
use crate::frame::file;
use json::{Reader, Scratch};
use std::alloc::Global;

/// How deep arrays and objects may nest, as `serde_json` has it.
const DEPTH: usize = 127;

/// An entry of a file: the text of a code and of a certificate, and the heaps where they are named.
#[derive(Clone, Copy)]
pub(crate) struct Texts<'a> {
    pub(crate) code: &'a str,
    pub(crate) certificate: &'a str,
    pub(crate) heaps: Option<u64>,
}

impl Texts<'_> {
    /// The heaps of which the certificate is to speak: 0 where none are named.
    pub(crate) fn heaps(&self) -> u64
        ensures { result ≡ heaps_named (written self.now) }
    {
        match self.heaps {
            Some(n) => n,
            None => 0,
        }
    }
}

/// The entries of a catalogue file, in order. Texts with escapes are written to `scratch`; nothing
/// else of the file is kept.
pub(crate) fn entries_of<'a>(
    alloc: Global,
    bytes: &'a [u8],
    scratch: &'a mut Scratch,
) -> Result<Vec<Texts<'a>>, LoadFault>
    ensures ok { IfOk result (λ es. Holds bytes.now (map written es.items)) }
    ensures err { IfErr result (IsNoFile bytes.now) }
{
    let Ok(text) = std::str::from_utf8(bytes) else {
        return Err(LoadFault::Json);
    };
    let mut reader = Reader::new(text, scratch)?;
    let entries = file(alloc, &mut reader, DEPTH)?;
    if reader.next().is_some() {
        return Err(LoadFault::Json);
    }
    entries.ok_or(LoadFault::Shape)
}
