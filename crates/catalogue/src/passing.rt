//! Passing over JSON of which nothing is kept.
ghost use Rattle.std.specs.Prelude.{◌+◌, ◌<◌, ◌∷◌, length, Some, None, IfErr, OnOk, ⊤};
ghost use Rattle.json.specs.Reads.{token_of};
ghost use Rattle.serde_json.specs.Data.{Items, Members, no_members};
ghost use Rattle.catalogue.specs.Reading.{IsUnread, Passes, ReadsItems, ReadsMembers, ReadsValue};

use crate::fault::LoadFault;
use crate::number::whole;
use json::{Reader, Token};

/// Passes a value, which nests no deeper than this.
#[cycle(pass)]
pub(crate) fn pass_value(reader: &mut Reader<'_>, depth: usize) -> Result<(), LoadFault>
    ensures passed { OnOk result (Passes depth reader.old (λ d. ⊤) reader.new) }
    ensures shorter { OnOk result (length reader.new < length reader.old) }
    ensures err { IfErr result (IsUnread (ReadsValue depth reader.old None)) }
{
    let Some(token) = reader.next() else {
        return Err(LoadFault::Json);
    };
    pass_from(token, reader, depth)
}

/// Passes the rest of the value that begins with this token.
#[cycle(pass)]
pub(crate) fn pass_from(
    token: Token<'_>,
    reader: &mut Reader<'_>,
    depth: usize,
) -> Result<(), LoadFault>
    ensures passed { OnOk result
        (Passes depth (token_of token.entry ∷ reader.old) (λ d. ⊤) reader.new) }
    ensures shorter { OnOk result (length reader.new < length reader.old + 1) }
    ensures err { IfErr result
        (IsUnread (ReadsValue depth (token_of token.entry ∷ reader.old) None)) }
{
    match token {
        Token::String(_) | Token::Bool(_) | Token::Null => Ok(()),
        Token::Number(text) => match whole(text) {
            Some(_) => Ok(()),
            None => Err(LoadFault::Json),
        },
        Token::BeginArray if depth > 0 => pass_items(reader, depth - 1),
        Token::BeginObject if depth > 0 => pass_members(reader, depth - 1),
        _ => Err(LoadFault::Json),
    }
}

/// Passes items and the bracket that closes them.
#[cycle(pass)]
pub(crate) fn pass_items(reader: &mut Reader<'_>, depth: usize) -> Result<(), LoadFault>
    ensures passed { OnOk result
        ((ds : Items) × ReadsItems depth reader.old (Some (ds, reader.new))) }
    ensures shorter { OnOk result (length reader.new < length reader.old) }
    ensures err { IfErr result (IsUnread (ReadsItems depth reader.old None)) }
{
    while !reader.take_end_array() {
        pass_value(reader, depth)?;
    }
    Ok(())
}

/// Passes members and the brace that closes them.
#[cycle(pass)]
fn pass_members(reader: &mut Reader<'_>, depth: usize) -> Result<(), LoadFault>
    ensures passed { OnOk result
        ((ms : Members) × ReadsMembers depth no_members reader.old (Some (ms, reader.new))) }
    ensures shorter { OnOk result (length reader.new < length reader.old) }
    ensures err { IfErr result (IsUnread (ReadsMembers depth no_members reader.old None)) }
{
    while let Some(_) = reader.next_key()? {
        pass_value(reader, depth)?;
    }
    Ok(())
}
