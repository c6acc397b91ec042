//! One turn of one proposer.
ghost use Rattle.std.specs.Prelude.{◌≡◌, ◌∷◌, IfOk, IfErr};
ghost use Rattle.answers.specs.ByteVerdicts.{refused};
ghost use Rattle.quotient_finder.specs.Finding.{FindsOnly};
ghost use Rattle.quotient_finder.specs.Histories.Event.{Told};
ghost use Rattle.quotient_finder.specs.Turns.{HasReplied, HasWanted, IsJudged, IsLost, Sifts};

use crate::gave_up::GaveUp;
use crate::proposer::Proposer;
use crate::reply::ProposerReply;
use checker::{Certified, Refusal, check};
use octal_code::Code;
use std::alloc::Global;

/// Asks a proposer once, checks its draft, and tells it of a refusal.
pub(crate) fn ask<P: Proposer>(
    alloc: Global,
    code: &Code,
    heaps: u64,
    proposer: &mut P,
    members: u32,
) -> Result<ProposerReply, GaveUp>
    ensures found { IfOk result (FindsOnly code.now heaps) }
    ensures turn { IfOk result (λ reply.
        HasReplied code.now heaps members reply (P.history proposer.old) (P.history proposer.new)) }
    ensures memory { IfErr result (λ why. (why ≡ GaveUp.Memory)
        × HasWanted members (P.history proposer.old) (P.history proposer.new)) }
{
    let Some(draft) = proposer.propose(code)? else {
        return Ok(ProposerReply::Nothing);
    };
    judge(alloc, code, heaps, &draft, proposer, members)
}

/// Checks the draft of a proposer, and tells it of a refusal.
fn judge<P: Proposer>(
    alloc: Global,
    code: &Code,
    heaps: u64,
    draft: &[u8],
    proposer: &mut P,
    members: u32,
) -> Result<ProposerReply, GaveUp>
    ensures found { IfOk result (FindsOnly code.now heaps) }
    ensures judged { IfOk result (λ reply. IsJudged code.now heaps members draft.now reply
        (P.history proposer.old) (P.history proposer.new)) }
    ensures memory { IfErr result (λ why. (why ≡ GaveUp.Memory)
        × IsLost members draft.now (P.history proposer.old) (P.history proposer.new)) }
{
    match check(alloc, draft, members) {
        Ok(certified) => Ok(sift(certified, code, heaps)),
        Err(Refusal::Memory) => Err(GaveUp::Memory),
        Err(refusal) => tell(proposer, refusal),
    }
}

/// Tells a proposer of a refusal of its draft.
fn tell<P: Proposer>(proposer: &mut P, refusal: Refusal) -> Result<ProposerReply, GaveUp>
    ensures told { P.history proposer.new ≡ Told (refused refusal) ∷ P.history proposer.old }
    ensures drafted { IfOk result (λ reply. reply ≡ ProposerReply.Drafted) }
    ensures memory { IfErr result (λ why. why ≡ GaveUp.Memory) }
{
    proposer.learn(&refusal)?;
    Ok(ProposerReply::Drafted)
}

/// The certificate, if it is one of the code and kind.
fn sift(certified: Certified, code: &Code, heaps: u64) -> ProposerReply
    ensures found { FindsOnly code.now heaps result }
    ensures sifted { Sifts code.now heaps certified result }
{
    if certified.cert().heaps() == heaps && certified.cert().code() == code {
        ProposerReply::Found(certified)
    } else {
        ProposerReply::Drafted
    }
}
