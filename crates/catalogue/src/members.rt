//! The members of an object, gathered one after another.
ghost use Rattle.std.specs.Prelude.{◌≤◌, ◌<◌, ℕ, length, None, Some, IfErr, OnOk};
ghost use Rattle.serde_json.specs.Data.{Members, no_members};
ghost use Rattle.catalogue.specs.Reading.{IsUnread, Puts, ReadsMembers, ReadsValue};

use crate::fault::LoadFault;
use json::Reader;

/// What is found of an object's members.
pub(crate) trait Found<'a> {
    /// What was found of these members.
    ghost are: { Self → Members → Type 0 };

    /// How deep the values may nest, at least.
    ghost room: { ℕ };

    /// Takes the value of the member of this name.
    fn take(&mut self, reader: &mut Reader<'a>, depth: usize, name: &str) -> Result<(), LoadFault>
        requires { room ≤ depth }
        ensures taken { OnOk result
            (Puts depth name.now reader.old reader.new (are self.old) (are self.new)) }
        ensures shorter { OnOk result (length reader.new < length reader.old) }
        ensures err { IfErr result (IsUnread (ReadsValue depth reader.old None)) };
}

/// Takes the members up to the brace that closes them.
pub(crate) fn take_members<'a, F: Found<'a>>(
    found: &mut F,
    reader: &mut Reader<'a>,
    depth: usize,
) -> Result<(), LoadFault>
    requires deep { F.room ≤ depth }
    requires none { F.are found.old no_members }
    ensures read { OnOk result
        ((ms : Members) × ReadsMembers depth no_members reader.old (Some (ms, reader.new))
        × F.are found.new ms) }
    ensures shorter { OnOk result (length reader.new < length reader.old) }
    ensures err { IfErr result (IsUnread (ReadsMembers depth no_members reader.old None)) }
{
    while let Some(name) = reader.next_key()? {
        found.take(reader, depth, name)?;
    }
    Ok(())
}
