//! What a quotient of any kind says of positions.
ghost use Rattle.std.specs.Prelude.{◌≡◌, ◌↔◌, ◌≤◌, IsTrue};
ghost use Rattle.misere_theory.specs.Certificates.{Certificate, IsHeapOf};
ghost use Rattle.misere_theory.specs.Games.{IsHeap, IsPosition};
ghost use Rattle.misere_theory.specs.Parts.{IsPart};
ghost use Rattle.dominance_text.specs.Said.{DominanceSaid};
ghost use Rattle.given_quotients.specs.declared.giving.Quotient.TheVariants.{Finite, Whole};
ghost use Rattle.positions.specs.Outcomes.{HasOutcome};
ghost use Rattle.presented_tables.specs.Tested.{HasWord};
ghost use Rattle.position_commands.specs.Kinds.{HeapIn, IsAnswerIn, SpeaksIn, code_of, looks_of, most_looks_of, most_of, parts_of};

use answers::Certified;
use given_quotients::Quotient;
use label_players::{
    presented_answer, presented_fits, presented_outcome_at, whole_answer, whole_outcome_at,
};
use octal_code::Code;
use player::{Answer, Outcome, answer, fits, outcome_by};
use positions::{Options, Position, options_up_to};
use presented_checker::PresentedQuotient;
use whole_checker::WholeGame;

/// That a whole game speaks of the position, as it does of each.
fn whole_fits(position: &Position) -> bool
    ensures yes { IsTrue result }
    ensures speaks { IsPosition IsHeap position.now }
{
    let _ = position.heaps();
    true
}

/// Whether the quotient speaks of the position.
pub(crate) fn speaks_of(quotient: &Quotient, position: &Position) -> bool
    ensures speaks { IsTrue result ↔ SpeaksIn quotient.now position.now }
    ensures full { (c : Certificate) → quotient.now ≡ Finite c → 1 ≤ c.period → IsTrue result }
    ensures whole { (c : DominanceSaid) → quotient.now ≡ Whole c → IsTrue result }
{
    match quotient {
        Quotient::Finite(certified) => fits(certified, position),
        Quotient::Whole(_) => whole_fits(position),
        Quotient::Presented(presented) => presented_fits(presented, position),
    }
}

/// What to do in the position, of which the quotient speaks.
pub(crate) fn answer_in(quotient: &Quotient, position: &Position) -> Answer
    requires { SpeaksIn quotient.now position.now }
    ensures { IsAnswerIn quotient.now position.now result }
{
    match quotient {
        Quotient::Finite(certified) => answer(certified, position),
        Quotient::Whole(game) => whole_answer(game, position),
        Quotient::Presented(presented) => presented_answer(presented, position),
    }
}

/// Who wins from the position of these heaps, of which the quotient speaks.
pub(crate) fn outcome_at(quotient: &Quotient, heaps: &[u64]) -> Outcome
    requires { SpeaksIn quotient.now heaps.now }
    ensures { HasOutcome (code_of quotient.now) heaps.now result }
{
    match quotient {
        Quotient::Finite(certified) => outcome_by(certified, heaps),
        Quotient::Whole(game) => whole_outcome_at(game, heaps),
        Quotient::Presented(presented) => presented_outcome_at(presented, heaps),
    }
}

/// That no move leaves the heaps of which a certificate speaks. It does nothing.
fn finite_inside(certified: &Certified)
    ensures { IsPart (IsHeapOf certified.now) certified.now.code }
{}

/// That no move leaves the heaps of a whole game. It does nothing.
fn whole_inside(game: &WholeGame)
    ensures { IsPart IsHeap game.now.code }
{}

/// That no move leaves the heaps of which a presentation speaks. It does nothing.
fn presented_inside(presented: &PresentedQuotient)
    ensures { IsPart (HasWord presented.now.said) presented.now.said.code }
{
    let _ = presented.said();
}

/// That no move leaves the heaps of which the quotient speaks. It does nothing.
pub(crate) fn stays_inside(quotient: &Quotient)
    ensures { IsPart (HeapIn quotient.now) (code_of quotient.now) }
{
    match quotient {
        Quotient::Finite(certified) => finite_inside(certified),
        Quotient::Whole(game) => whole_inside(game),
        Quotient::Presented(presented) => presented_inside(presented),
    }
}

/// The code of the game.
fn code_of(quotient: &Quotient) -> &Code
    ensures { result.now ≡ code_of quotient.now }
{
    match quotient {
        Quotient::Finite(certified) => certified.cert().code(),
        Quotient::Whole(game) => game.code(),
        Quotient::Presented(presented) => presented.code(),
    }
}

/// How large the parts but the largest are at most of the options that are looked at, by a finite quotient.
fn finite_most(certified: &Certified) -> u64
    ensures { result ≡ most_of (Finite certified.now) }
{
    let cert = certified.cert();
    cert.start() + cert.period() - 1
}

/// How large the parts but the largest are at most of the options that are looked at.
fn most_of(quotient: &Quotient) -> u64
    ensures { result ≡ most_of quotient.now }
{
    match quotient {
        Quotient::Finite(certified) => finite_most(certified),
        Quotient::Whole(game) => (game.text().start as u64).saturating_sub(1),
        Quotient::Presented(presented) => presented.heaps() as u64,
    }
}

/// The options of a heap that are looked at, in the order of moves.
pub(crate) fn looks(quotient: &Quotient, n: u64) -> Options
    ensures { result ≡ looks_of quotient.now n }
{
    options_up_to(code_of(quotient), n, most_of(quotient))
}

/// The number of which so many options of a heap are at most a multiple, by a finite quotient.
fn finite_parts(certified: &Certified) -> u64
    ensures value { result ≡ parts_of (Finite certified.now) }
    ensures few { result ≤ 65537 }
{
    let cert = certified.cert();
    cert.start() + cert.period() + 1
}

/// One more than the parts that are tried for all but the largest, and one for none.
fn parts_of(quotient: &Quotient) -> u64
    ensures value { result ≡ parts_of quotient.now }
    ensures few { result ≤ 65537 }
{
    match quotient {
        Quotient::Finite(certified) => finite_parts(certified),
        Quotient::Whole(game) => game.text().start as u64 + 1,
        Quotient::Presented(presented) => presented.heaps() as u64 + 2,
    }
}

/// How many options of a heap there are to look at, at most.
pub(crate) fn looks_bound(quotient: &Quotient) -> u64
    ensures { result ≡ most_looks_of quotient.now }
{
    let code = code_of(quotient);
    let digits = code.last() as u64 + 1;
    let parts = parts_of(quotient);
    if code.leaves_three() {
        digits * (parts * parts)
    } else {
        digits * parts
    }
}
