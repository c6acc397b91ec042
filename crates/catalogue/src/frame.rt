//! The members of a catalogue file.
ghost use Rattle.std.specs.Prelude.{◌≡◌, ◌<◌, ◌↔◌, length, true, None, Some, IfErr, IfOk, OnOk};
ghost use Rattle.serde_json.specs.Data.{Items, Members, array, no_members, object};
ghost use Rattle.catalogue.specs.Reading.{AreParts, EntriesAre, FileIs, IsUnread, Name, Passes, Puts, ReadsItems, ReadsMembers, ReadsValue};

use crate::fault::LoadFault;
use crate::fields::{entry, whole_number};
use crate::file::Texts;
use crate::members::{Found, take_members};
use crate::passing::{pass_from, pass_items, pass_value};
use json::{Reader, Token};
use std::alloc::Global;

/// The version of the files that are written.
const VERSION: u64 = 2;

/// The version of those before it, which are still read. Their entries name no heaps.
const FIRST_VERSION: u64 = 1;

/// What was found of a file's members so far. Of a member that stands twice the last counts.
#[derive(Drop)]
struct Frame<'a> {
    alloc: Global,
    entries: Option<Vec<Texts<'a>>>,
    version: Option<u64>,
    others: bool,
}

/// The items up to the bracket that closes them, if all are entries.
fn items<'a>(
    alloc: Global,
    reader: &mut Reader<'a>,
    depth: usize,
) -> Result<Option<Vec<Texts<'a>>>, LoadFault>
    requires { 0 < depth }
    ensures read { IfOk result
        (λ es. (ds : Items) × ReadsItems depth reader.old (Some (ds, reader.new))
        × EntriesAre es (Some (array ds))) }
    ensures shorter { OnOk result (length reader.new < length reader.old) }
    ensures err { IfErr result (IsUnread (ReadsItems depth reader.old None)) }
{
    let mut entries = Vec::new(alloc);
    while !reader.take_end_array() {
        let Some(texts) = entry(reader, depth)? else {
            pass_items(reader, depth)?;
            return Ok(None);
        };
        entries.push(texts)?;
    }
    Ok(Some(entries))
}

/// The value, if it is an array of entries. Any other is passed.
fn entries<'a>(
    alloc: Global,
    reader: &mut Reader<'a>,
    depth: usize,
) -> Result<Option<Vec<Texts<'a>>>, LoadFault>
    requires { 1 < depth }
    ensures read { IfOk result
        (λ es. Passes depth reader.old (λ d. EntriesAre es (Some d)) reader.new) }
    ensures shorter { OnOk result (length reader.new < length reader.old) }
    ensures err { IfErr result (IsUnread (ReadsValue depth reader.old None)) }
{
    let Some(token) = reader.next() else {
        return Err(LoadFault::Json);
    };
    if let Token::BeginArray = token {
        return items(alloc, reader, depth - 1);
    }
    pass_from(token, reader, depth)?;
    Ok(None)
}

impl<'a> Found<'a> for Frame<'a> {
    ghost are = { AreParts };

    ghost room = { 2 };

    fn take(&mut self, reader: &mut Reader<'a>, depth: usize, name: &str) -> Result<(), LoadFault> {
        if name == "entries" {
            self.entries = entries(self.alloc, reader, depth)?;
        } else if name == "version" {
            self.version = whole_number(reader, depth)?;
        } else {
            pass_value(reader, depth)?;
            self.others = true;
        }
        Ok(())
    }
}

impl<'a> Frame<'a> {
    /// The entries of the file, if these are its members and there is no other.
    fn into_entries(self) -> Option<Vec<Texts<'a>>>
        ensures { (ms : Members) → AreParts self.entry ms → FileIs result (object ms) }
    {
        if self.others {
            return None;
        }
        let version = self.version?;
        if version != FIRST_VERSION && version != VERSION {
            return None;
        }
        let entries = self.entries?;
        if !all_name(&entries, version == VERSION) {
            return None;
        }
        Some(entries)
    }
}

/// Whether each entry names heaps, or none does, as `named` says.
fn all_name(entries: &[Texts<'_>], named: bool) -> bool
    ensures { (result ≡ true) ↔ Name named entries.now }
{
    for entry in entries {
        if entry.heaps.is_some() != named {
            return false;
        }
    }
    true
}

/// The entries of the file whose members these are, up to the brace that closes it, if it is one.
fn members<'a>(
    alloc: Global,
    reader: &mut Reader<'a>,
    depth: usize,
) -> Result<Option<Vec<Texts<'a>>>, LoadFault>
    requires { 1 < depth }
    ensures read { IfOk result
        (λ es. (ms : Members) × ReadsMembers depth no_members reader.old (Some (ms, reader.new))
        × FileIs es (object ms)) }
    ensures err { IfErr result (IsUnread (ReadsMembers depth no_members reader.old None)) }
{
    let mut frame = Frame {
        alloc,
        entries: None,
        version: None,
        others: false,
    };
    take_members(&mut frame, reader, depth)?;
    Ok(frame.into_entries())
}

/// The entries of the value, if it is a catalogue file. Any other is passed.
pub(crate) fn file<'a>(
    alloc: Global,
    reader: &mut Reader<'a>,
    depth: usize,
) -> Result<Option<Vec<Texts<'a>>>, LoadFault>
    requires { 2 < depth }
    ensures read { IfOk result (λ es. Passes depth reader.old (FileIs es) reader.new) }
    ensures err { IfErr result (IsUnread (ReadsValue depth reader.old None)) }
{
    let Some(token) = reader.next() else {
        return Err(LoadFault::Json);
    };
    if let Token::BeginObject = token {
        return members(alloc, reader, depth - 1);
    }
    pass_from(token, reader, depth)?;
    Ok(None)
}
