//! The text of a catalogue.
ghost use Rattle.std.specs.Prelude.{◌≡◌, ◌<◌, IfOk, OnOk, string_bytes};
ghost use Rattle.std.specs.Io.KnownBytes.{Appends};
ghost use Rattle.certificate_text.specs.Spelling.{lines, text};
ghost use Rattle.serde_json.specs.View.{items_view, view};
ghost use Rattle.streams.specs.Stream.{AppendsSome};
ghost use Rattle.catalogue.specs.Texts.{catalogue_data, catalogue_text, entry_data, file_data};

use crate::fault::StoreFault;
use crate::store::Catalogue;
use allocation::Memory;
use certificate::{Cert, in_ranges};
use serde_json::{Value, json};
use std::alloc::Global;
use streams::{MemorySink, Sink, write_whole};

/// The text of a certificate, which is its one spelling. That is UTF-8, so nothing of it is lost.
pub fn certificate_text(alloc: Global, cert: &Cert) -> Result<String, Memory>
    ensures { IfOk result (λ t. string_bytes t ≡ text (lines cert.now)) }
{
    in_ranges(cert);
    let mut sink = MemorySink::new(alloc);
    match certificate::write(cert, &mut sink) {
        Ok(()) => Ok(String::from_utf8_lossy(alloc, sink.bytes())?),
        Err(_) => Err(Memory),
    }
}

/// The JSON value of an entry.
fn entry_value(alloc: Global, cert: &Cert) -> Result<Value, Memory>
    ensures { IfOk result (λ value. view value ≡ entry_data cert.now) }
{
    let certificate = certificate_text(alloc, cert)?;
    let code = cert.code().text(alloc)?;
    let heaps = cert.heaps();
    let value = json!(in alloc; {"certificate": certificate, "code": code, "heaps": heaps})?;
    Ok(value)
}

/// The JSON value of a file with these entries.
fn file_value(alloc: Global, entries: Vec<Value>) -> Result<Value, Memory>
    ensures { IfOk result (λ value. view value ≡ file_data (items_view entries.items)) }
{
    let value = json!(in alloc; {"entries": entries, "version": 2u64})?;
    Ok(value)
}

impl Catalogue {
    /// The JSON value of the catalogue.
    fn value(&self, alloc: Global) -> Result<Value, Memory>
        ensures { IfOk result (λ value. view value ≡ catalogue_data self.now) }
    {
        let mut entries = Vec::new(alloc);
        for certified in self.entries() {
            let entry = entry_value(alloc, certified.cert())?;
            entries.push(entry)?;
        }
        file_value(alloc, entries)
    }

    /// The text of the catalogue: compact JSON and one LF.
    pub fn text(&self) -> Result<String, Memory>
        ensures { IfOk result (λ t. string_bytes t ≡ catalogue_text self.now) }
    {
        let alloc = self.allocator();
        let value = self.value(alloc)?;
        let mut text = value.to_string(alloc)?;
        text.push('\n')?;
        Ok(text)
    }

    /// Writes the text of the catalogue.
    ///
    /// Refuses `Write` only where the sink fails in this call; what went out is then a beginning of
    /// the text. After want of memory nothing was written.
    pub fn write<W: Sink>(&self, sink: &mut W) -> Result<(), StoreFault>
        ensures written { OnOk result
            (Appends (W.taken sink.old) (W.taken sink.new) (catalogue_text self.now)) }
        ensures beginning { result ≡ Err StoreFault.Write
            → AppendsSome (W.taken sink.old) (W.taken sink.new) (catalogue_text self.now) }
        ensures cause { result ≡ Err StoreFault.Write → W.failures sink.old < W.failures sink.new }
        ensures unwritten { result ≡ Err StoreFault.Memory → sink.new ≡ sink.old }
    {
        let text = self.text()?;
        match write_whole(sink, text.as_bytes()) {
            Ok(()) => Ok(()),
            Err(_) => Err(StoreFault::Write),
        }
    }
}
