//! Rounds over proposers.
ghost use Rattle.std.specs.Prelude.{◌≡◌, ◌<◌, IfOk, IfErr, map, vec_len};
ghost use Rattle.quotient_finder.specs.Finding.{IsFound, FindsOnly};
ghost use Rattle.quotient_finder.specs.Rounds.{IsRound, IsBroken, HasSearched};

use crate::gave_up::GaveUp;
use crate::limits::Limits;
use crate::proposer::Proposer;
use crate::reply::ProposerReply;
use crate::turn::ask;
use checker::Certified;
use octal_code::Code;
use std::alloc::Global;

/// Asks each proposer once, in order, until a certificate of the code and kind is found.
fn ask_each<P: Proposer>(
    alloc: Global,
    code: &Code,
    heaps: u64,
    proposers: &mut [P],
    members: u32,
) -> Result<ProposerReply, GaveUp>
    ensures found { IfOk result (FindsOnly code.now heaps) }
    ensures round { IfOk result (λ reply. IsRound code.now heaps members reply
        (map P.history proposers.old) (map P.history proposers.new)) }
    ensures memory { IfErr result (λ why. (why ≡ GaveUp.Memory) × IsBroken code.now heaps members
        (map P.history proposers.old) (map P.history proposers.new)) }
{
    let mut has_drafted = false;
    for proposer in proposers.iter_mut() {
        match ask(alloc, code, heaps, proposer, members)? {
            ProposerReply::Found(certified) => return Ok(ProposerReply::Found(certified)),
            ProposerReply::Drafted => has_drafted = true,
            ProposerReply::Nothing => {}
        }
    }
    if has_drafted {
        Ok(ProposerReply::Drafted)
    } else {
        Ok(ProposerReply::Nothing)
    }
}

/// Searches as [`find`] does, over proposers of one type, of which there is one at least.
pub fn ask_rounds<P: Proposer>(
    alloc: Global,
    code: &Code,
    heaps: u64,
    proposers: &mut [P],
    limits: Limits,
) -> Result<Certified, GaveUp>
    ensures found { IfOk result (IsFound code.now heaps) }
    ensures searched { HasSearched code.now heaps limits.members limits.rounds
        (map P.history proposers.old) (map P.history proposers.new) result }
    ensures no_round { limits.rounds ≡ 0 → result ≡ Err GaveUp.Rounds }
{
    for _ in 0..limits.rounds {
        match ask_each(alloc, code, heaps, proposers, limits.members)? {
            ProposerReply::Found(certified) => return Ok(certified),
            ProposerReply::Drafted => {}
            ProposerReply::Nothing => return Err(GaveUp::Empty),
        }
    }
    Err(GaveUp::Rounds)
}

/// Searches for a certificate of the code and of the kind that `Cert::heaps` tells: 0 asks for a
/// full one, and M from 1 on for the partial one of the heaps 1 to M. In each round every proposer
/// is asked once, in order, and what it drafts is checked.
///
/// An accepted certificate of the code and kind ends the search. A refused draft is told to its
/// proposer, and an accepted certificate of another code or kind is dropped. `Rounds` says that all
/// rounds were spent, `Empty` that there is no proposer, whatever the rounds, or that none gave a
/// draft in a round, and `Memory` that a proposer or a check answered it. The list stays as long as
/// it is.
pub fn find(
    alloc: Global,
    code: &Code,
    heaps: u64,
    proposers: &mut Vec<Box<dyn Proposer>>,
    limits: Limits,
) -> Result<Certified, GaveUp>
    ensures found { IfOk result (IsFound code.now heaps) }
    ensures searched { HasSearched code.now heaps limits.members limits.rounds
        (map history proposers.old.items) (map history proposers.new.items) result }
    ensures stays { vec_len proposers.new ≡ vec_len proposers.old }
    ensures no_proposer { vec_len proposers.old ≡ 0 → result ≡ Err GaveUp.Empty }
    ensures no_round { 0 < vec_len proposers.old → limits.rounds ≡ 0 → result ≡ Err GaveUp.Rounds }
{
    if proposers.is_empty() {
        return Err(GaveUp::Empty);
    }
    ask_rounds(alloc, code, heaps, proposers, limits)
}
