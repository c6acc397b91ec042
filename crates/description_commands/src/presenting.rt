//! The presentation of a quotient, as a certificate of its own.
ghost use Rattle.std.specs.Prelude.{◌≡◌, IfOk, None, length, option_map};
ghost use Rattle.description_commands.specs.Described.{TellsPresentation, unpresented_line};

use allocation::Memory;
use answers::Certified;
use command_results::{Noted, Said};
use presentation_finder::present_certified;
use presentation_search::{FoundPresentation, Unpresented};
use std::alloc::Global;

/// Why no presentation was found, in a line.
fn unpresented_line(why: Unpresented) -> &'static str
    ensures { result.now ≡ unpresented_line why }
{
    match why {
        Unpresented::Limit => "not presented within what the check takes\n",
        Unpresented::Refused => "not presented: the check refused what was found\n",
        Unpresented::Work => "not presented within the work that is allowed\n",
    }
}

/// The same, in memory of its own.
fn line_bytes(alloc: Global, why: Unpresented) -> Result<Vec<u8>, Memory>
    ensures { IfOk result (λ v. v.items ≡ unpresented_line why) }
{
    let bytes = unpresented_line(why).as_bytes().to_vec(alloc)?;
    Ok(bytes)
}

/// Says the presentation that was found.
fn told(certified: &Certified, found: FoundPresentation) -> Said
    requires code { found.quotient.said.code ≡ certified.now.code }
    requires heaps { found.quotient.said.heaps ≡ length certified.now.phi }
    requires period { found.quotient.said.period ≡ certified.now.period }
    ensures { TellsPresentation certified.now result.text.items result.succeeds }
{
    let _ = certified;
    Said {
        text: found.into_text(),
        succeeds: true,
    }
}

/// Says that none was found.
fn untold(alloc: Global, certified: &Certified, why: Unpresented) -> Result<Said, Memory>
    ensures { IfOk result (λ s. TellsPresentation certified.now s.text.items s.succeeds) }
{
    let _ = certified;
    let text = line_bytes(alloc, why)?;
    Ok(Said {
        text,
        succeeds: false,
    })
}

/// The text of the presentation of the quotient.
pub fn presenting(alloc: Global, certified: &Certified) -> Result<Noted, Memory>
    ensures { IfOk result (λ n. TellsPresentation certified.now n.said.text.items n.said.succeeds
        × (option_map (λ t. t.now) n.note ≡ None)) }
{
    let said = match present_certified(alloc, certified)? {
        Ok(found) => told(certified, found),
        Err(why) => untold(alloc, certified, why)?,
    };
    Ok(Noted { said, note: None })
}
