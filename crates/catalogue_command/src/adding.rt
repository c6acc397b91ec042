//! A certificate added to a catalogue file.
ghost use Rattle.std.specs.Prelude.{◌≡◌, IfErr, IfOk, Ok, OnErr, OnOk, false, string_bytes, true};
ghost use Rattle.streams.specs.Files.{Replaces};
ghost use Rattle.catalogue.specs.Texts.{catalogue_text};
ghost use Rattle.catalogue_command.specs.Answers.{Adds, AddsAnswer, Begins, Creates, IsAddition, Takes};
ghost use Rattle.catalogue_command.specs.Stops.{StopsAdd, StopsCreate, StopsList, StopsSalvage, failed};

use crate::files::{put, read, read_front};
use crate::lines::{added_line, last_line, line};
use allocation::Memory;
use catalogue::{AddFault, Catalogue, LoadFault};
use checker::{Certified, check};
use command_results::{Said, Stop};
use given_quotients::fronts_decide;
use std::alloc::Global;
use streams::Folder;
use verdict_texts::verdict_text;

/// The catalogue of the file, or an empty one.
fn begun<'a, F: Folder>(
    alloc: Global,
    folder: &mut F,
    file: &'a str,
    fresh: bool,
    limit: u32,
) -> Result<Result<Catalogue, LoadFault>, Stop<'a>>
    ensures begins { IfOk result (Begins fresh limit (F.files folder.old) file.entry.now) }
    ensures kept { F.files folder.new ≡ F.files folder.old }
    ensures succeeds { IfOk result (λ _. F.failed_reads folder.new ≡ F.failed_reads folder.old) }
    ensures writes { F.failed_writes folder.new ≡ F.failed_writes folder.old }
    ensures read { OnErr result (fresh ≡ false) }
    ensures stops { IfErr result (StopsList file.entry.now
        (failed (F.failed_reads folder.old) (F.failed_writes folder.old))
        (failed (F.failed_reads folder.new) (F.failed_writes folder.new))) }
{
    if fresh {
        return Ok(Ok(Catalogue::new(alloc)));
    }
    match read(folder, file) {
        Ok(bytes) => Ok(Catalogue::load(alloc, &bytes, limit)),
        Err(stop) => Err(stop),
    }
}

/// Adds a certificate that was accepted: whether it was added, and what is printed.
fn taken(alloc: Global, catalogue: &mut Catalogue, certified: Certified) -> Result<Said, Memory>
    ensures { IfOk result
        (λ r. Takes catalogue.old certified r.succeeds catalogue.new r.text.items) }
{
    match added_line(alloc, certified.cert().code()) {
        Ok(text) => match catalogue.add(certified) {
            Ok(()) => Ok(Said::done(text)),
            Err(AddFault::Present) => {
                drop(text);
                let text = line(alloc, "refused 1 Present\n")?;
                Ok(Said::no(text.into_bytes()))
            }
            Err(AddFault::Memory) => Err(Memory),
        },
        Err(memory) => Err(memory),
    }
}

/// Checks the bytes of a certificate and adds it: whether it was added, and what is printed.
fn addition(
    alloc: Global,
    catalogue: &mut Catalogue,
    bytes: &[u8],
    limit: u32,
) -> Result<Said, Memory>
    ensures { IfOk result
        (λ r. IsAddition catalogue.old bytes.now limit r.succeeds catalogue.new r.text.items) }
{
    match check(alloc, bytes, limit) {
        Ok(certified) => taken(alloc, catalogue, certified),
        Err(refusal) => {
            let text = verdict_text(alloc, Err(&refusal));
            drop(refusal);
            Ok(Said::no(text?.into_bytes()))
        }
    }
}

/// Puts the text of a catalogue in place of the file's.
pub(crate) fn save<F: Folder>(
    folder: &mut F,
    file: &str,
    catalogue: &Catalogue,
) -> Result<(), Stop<'static>>
    ensures saved { OnOk result
        (Replaces (F.files folder.old) (F.files folder.new) file.now
        (catalogue_text catalogue.now)) }
    ensures kept { OnErr result (F.files folder.new ≡ F.files folder.old) }
    ensures stops { IfErr result (StopsCreate
        (failed (F.failed_reads folder.old) (F.failed_writes folder.old))
        (failed (F.failed_reads folder.new) (F.failed_writes folder.new))) }
{
    let text = catalogue.text()?;
    put(folder, file, text.as_bytes())
}

/// Puts the text of a catalogue in place of the file's, and says this of it.
pub(crate) fn saved<F: Folder>(
    folder: &mut F,
    file: &str,
    catalogue: &Catalogue,
    text: String,
) -> Result<Said, Stop<'static>>
    ensures told { IfOk result (λ r. (r.succeeds ≡ true)
        × Replaces (F.files folder.old) (F.files folder.new) file.now (catalogue_text catalogue.now)
        × (r.text.items ≡ string_bytes text)) }
    ensures kept { OnErr result (F.files folder.new ≡ F.files folder.old) }
    ensures stops { IfErr result (StopsCreate
        (failed (F.failed_reads folder.old) (F.failed_writes folder.old))
        (failed (F.failed_reads folder.new) (F.failed_writes folder.new))) }
{
    save(folder, file, catalogue)?;
    Ok(Said::done(text))
}

/// Makes a file of the empty catalogue, or puts it in place of what was there. Nothing is printed.
/// Where it stops, every file is as it was.
pub fn create<F: Folder>(alloc: Global, folder: &mut F, file: &str) -> Result<Said, Stop<'static>>
    ensures told { IfOk result
        (λ r. Creates (F.files folder.old) (F.files folder.new) file.now r.succeeds
        r.text.items) }
    ensures kept { OnErr result (F.files folder.new ≡ F.files folder.old) }
    ensures stops { IfErr result (StopsCreate
        (failed (F.failed_reads folder.old) (F.failed_writes folder.old))
        (failed (F.failed_reads folder.new) (F.failed_writes folder.new))) }
{
    saved(folder, file, &Catalogue::new(alloc), String::new(alloc))
}

/// Adds the certificate of another file to a catalogue, and puts its text in place of the file's
/// where it was added.
fn extended<'a, F: Folder>(
    alloc: Global,
    folder: &mut F,
    file: &str,
    certificate: &'a str,
    catalogue: &mut Catalogue,
    limit: u32,
) -> Result<Said, Stop<'a>>
    ensures told { IfOk result
        (λ r. AddsAnswer limit (F.files folder.old) (F.files folder.new) file.now
        certificate.entry.now (Ok catalogue.old) r.succeeds r.text.items) }
    ensures kept { OnErr result (F.files folder.new ≡ F.files folder.old) }
    ensures stops { IfErr result (StopsSalvage certificate.entry.now
        (failed (F.failed_reads folder.old) (F.failed_writes folder.old))
        (failed (F.failed_reads folder.new) (F.failed_writes folder.new))) }
{
    fronts_decide();
    let bytes = read_front(folder, certificate)?;
    let report = addition(alloc, catalogue, &bytes, limit)?;
    if report.succeeds {
        save(folder, file, catalogue)?;
    }
    Ok(report)
}

/// Adds the certificate of another file to the catalogue of the file, or to an empty one, and says
/// that it was added, or why not. The catalogue is loaded before the certificate is read. Where it
/// stops, every file is as it was.
pub fn add<'a, F: Folder>(
    alloc: Global,
    folder: &mut F,
    file: &'a str,
    certificate: &'a str,
    fresh: bool,
    limit: u32,
) -> Result<Said, Stop<'a>>
    ensures told { IfOk result
        (λ r. Adds fresh limit (F.files folder.old) (F.files folder.new) file.entry.now
        certificate.entry.now r.succeeds r.text.items) }
    ensures kept { OnErr result (F.files folder.new ≡ F.files folder.old) }
    ensures stops { IfErr result (StopsAdd fresh file.entry.now certificate.entry.now
        (failed (F.failed_reads folder.old) (F.failed_writes folder.old))
        (failed (F.failed_reads folder.new) (F.failed_writes folder.new))) }
{
    match begun(alloc, folder, file, fresh, limit) {
        Err(stop) => Err(stop),
        Ok(Err(fault)) => {
            let text = last_line(alloc, fault)?;
            Ok(Said::no(text.into_bytes()))
        }
        Ok(Ok(mut catalogue)) => extended(alloc, folder, file, certificate, &mut catalogue, limit),
    }
}
