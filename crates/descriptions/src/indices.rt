//! Which of Nim's quotients one is, without a description.
ghost use Rattle.std.specs.Prelude.{IfOk};
ghost use Rattle.descriptions.specs.Described.{TellsTame};

use crate::finding::table_of;
use crate::tame::{exponent, tame};
use allocation::Memory;
use answers::Certified;
use std::alloc::Global;

/// The number n where the quotient is T_n, if it is one of these. A table is made only of an order
/// that one of them has.
pub fn tame_index(alloc: Global, certified: &Certified) -> Result<Option<u16>, Memory>
    ensures { IfOk result (TellsTame certified.now) }
{
    let order = certified.cert().order();
    if order != 2 && exponent(order).is_none() {
        return Ok(None);
    }
    let table = table_of(alloc, certified)?;
    Ok(tame(certified, &table))
}
