//! The members of an entry.
ghost use Rattle.std.specs.Prelude.{◌≡◌, ◌<◌, length, option_map, None, Some, IfErr, IfOk, OnOk};
ghost use Rattle.serde_json.specs.Data.{Members, no_members, object};
ghost use Rattle.serde_json.specs.Find.{as_str};
ghost use Rattle.catalogue.specs.Reading.{AreFields, EntryIs, IsUnread, Passes, Puts, ReadsMembers, ReadsValue, whole_of};

use crate::fault::LoadFault;
use crate::file::Texts;
use crate::members::{Found, take_members};
use crate::number::whole;
use crate::passing::{pass_from, pass_value};
use json::{Reader, Token};
use misere_theory::LARGEST_PART;

/// The most heaps that an entry may name: as many as a certificate has entries.
const MOST_HEAPS: u64 = LARGEST_PART as u64;

/// What was found of an entry's members so far. Of a member that stands twice the last counts.
#[derive(Clone, Copy)]
struct Fields<'a> {
    certificate: Option<&'a str>,
    code: Option<&'a str>,
    /// Of the member `heaps`, if it stands: the whole number, if its value is one.
    heaps: Option<Option<u64>>,
    others: bool,
}

/// The value, if it is a text. Any other is passed.
fn text<'a>(reader: &mut Reader<'a>, depth: usize) -> Result<Option<&'a str>, LoadFault>
    ensures read { IfOk result
        (λ t. Passes depth reader.old (λ d. option_map (λ s. s.now) t ≡ as_str d) reader.new) }
    ensures shorter { OnOk result (length reader.new < length reader.old) }
    ensures err { IfErr result (IsUnread (ReadsValue depth reader.old None)) }
{
    let Some(token) = reader.next() else {
        return Err(LoadFault::Json);
    };
    if let Token::String(text) = token {
        return Ok(Some(text));
    }
    pass_from(token, reader, depth)?;
    Ok(None)
}

/// The value, if it is a whole number. Any other is passed.
pub(crate) fn whole_number(reader: &mut Reader<'_>, depth: usize) -> Result<Option<u64>, LoadFault>
    ensures read { IfOk result
        (λ v. Passes depth reader.old (λ d. v ≡ whole_of d) reader.new) }
    ensures shorter { OnOk result (length reader.new < length reader.old) }
    ensures err { IfErr result (IsUnread (ReadsValue depth reader.old None)) }
{
    let Some(token) = reader.next() else {
        return Err(LoadFault::Json);
    };
    if let Token::Number(text) = token {
        return whole(text).ok_or(LoadFault::Json);
    }
    pass_from(token, reader, depth)?;
    Ok(None)
}

impl<'a> Found<'a> for Fields<'a> {
    ghost are = { AreFields };

    ghost room = { 0 };

    fn take(&mut self, reader: &mut Reader<'a>, depth: usize, name: &str) -> Result<(), LoadFault> {
        if name == "certificate" {
            self.certificate = text(reader, depth)?;
        } else if name == "code" {
            self.code = text(reader, depth)?;
        } else if name == "heaps" {
            self.heaps = Some(whole_number(reader, depth)?);
        } else {
            pass_value(reader, depth)?;
            self.others = true;
        }
        Ok(())
    }
}

impl<'a> Fields<'a> {
    /// The texts of the entry, if these are its members and there is no other.
    fn texts(&self) -> Option<Texts<'a>>
        ensures { (ms : Members) → AreFields self.now ms → EntryIs result (object ms) }
    {
        if self.others {
            return None;
        }
        let certificate = self.certificate?;
        let code = self.code?;
        let heaps = match self.heaps {
            None => None,
            Some(Some(n)) if n <= MOST_HEAPS => Some(n),
            Some(_) => return None,
        };
        Some(Texts {
            code,
            certificate,
            heaps,
        })
    }
}

/// The entry whose members these are, up to the brace that closes it, if it is one.
fn members<'a>(reader: &mut Reader<'a>, depth: usize) -> Result<Option<Texts<'a>>, LoadFault>
    ensures read { IfOk result
        (λ e. (ms : Members) × ReadsMembers depth no_members reader.old (Some (ms, reader.new))
        × EntryIs e (object ms)) }
    ensures shorter { OnOk result (length reader.new < length reader.old) }
    ensures err { IfErr result (IsUnread (ReadsMembers depth no_members reader.old None)) }
{
    let mut fields = Fields {
        certificate: None,
        code: None,
        heaps: None,
        others: false,
    };
    take_members(&mut fields, reader, depth)?;
    Ok(fields.texts())
}

/// The value, if it is an entry: an object of exactly the members `code` and `certificate`, both
/// texts, and maybe `heaps`, a whole number to [`MOST_HEAPS`]. Any other is passed.
pub(crate) fn entry<'a>(
    reader: &mut Reader<'a>,
    depth: usize,
) -> Result<Option<Texts<'a>>, LoadFault>
    requires { 0 < depth }
    ensures read { IfOk result (λ e. Passes depth reader.old (EntryIs e) reader.new) }
    ensures shorter { OnOk result (length reader.new < length reader.old) }
    ensures err { IfErr result (IsUnread (ReadsValue depth reader.old None)) }
{
    let Some(token) = reader.next() else {
        return Err(LoadFault::Json);
    };
    if let Token::BeginObject = token {
        return members(reader, depth - 1);
    }
    pass_from(token, reader, depth)?;
    Ok(None)
}
