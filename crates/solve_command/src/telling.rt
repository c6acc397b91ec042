//! What is told of a table.
ghost use Rattle.std.specs.Prelude.{◌≡◌, ◌≢◌, IfOk};
ghost use Rattle.solve_command.specs.Certifies.{IsFaultText, TellsBytes, TellsTable, fault_status};

use crate::lines::{fault_text, no_table};
use allocation::Memory;
use own_quotients::{CertifyFault, Numbered, OwnTable, TableFault, read_table};
use std::alloc::Global;

/// What is told of a table: the text of its certificate, or the lines of a no.
#[derive(Drop)]
pub struct ToldTable {
    pub text: Vec<u8>,
    /// 0 of a certificate, else the number of the no, or 13 where no certificate was made.
    pub status: u32,
}

/// The status of a fault.
fn status_of(fault: &CertifyFault) -> u32
    ensures { result ≡ fault_status fault.now }
{
    match fault {
        CertifyFault::NoIdentity => 2,
        CertifyFault::NotCommuting(_, _) => 2,
        CertifyFault::Unreached(_) => 3,
        CertifyFault::NotAssociating(_, _, _) => 2,
        CertifyFault::Alike(_, _) => 6,
        CertifyFault::Refused(refusal) => refusal.number() as u32,
        CertifyFault::NoDraft => 13,
        CertifyFault::Memory => 9,
    }
}

/// What is told of a fault. Want of memory is handed on.
fn refuse(alloc: Global, fault: CertifyFault) -> Result<ToldTable, Memory>
    ensures text { IfOk result (λ t. IsFaultText fault t.text.items) }
    ensures status { IfOk result (λ t. t.status ≡ fault_status fault) }
{
    let text = fault_text(alloc, &fault)?;
    Ok(ToldTable {
        status: status_of(&fault),
        text: text.into_bytes(),
    })
}

/// What is told of a table.
fn tell_table(alloc: Global, table: &OwnTable, limit: u32) -> Result<ToldTable, Memory>
    ensures tells { IfOk result (λ t. TellsTable table.now limit t.text.items t.status) }
    ensures others { IfOk result (λ t. (t.status ≢ 9) × (t.status ≢ 14)) }
{
    match own_quotients::certify(alloc, table, limit) {
        Ok(Numbered { text, .. }) => Ok(ToldTable { text, status: 0 }),
        Err(fault) => refuse(alloc, fault),
    }
}

/// What is told of bytes that may spell a table, whose check may keep so many members.
pub fn certify_bytes(alloc: Global, bytes: &[u8], limit: u32) -> Result<ToldTable, Memory>
    ensures tells { IfOk result (λ t. TellsBytes bytes.now limit t.text.items t.status) }
    // These are of want of memory, and of want of room.
    ensures others { IfOk result (λ t. (t.status ≢ 9) × (t.status ≢ 14)) }
{
    match read_table(alloc, bytes) {
        Ok(table) => tell_table(alloc, &table, limit),
        Err(TableFault::Text(line)) => {
            let text = no_table(alloc, line)?;
            Ok(ToldTable {
                text: text.into_bytes(),
                status: 1,
            })
        }
        Err(TableFault::Memory) => Err(Memory),
    }
}
