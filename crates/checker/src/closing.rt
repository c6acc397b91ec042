//! The stage that closes the pairs under products with the heaps.
ghost use Rattle.std.specs.Prelude.{◌≡◌, ◌<◌, ◌≤◌, ◌+◌, ◌*◌, ℕ, List, length, IfSome, IfNone, false};
ghost use Rattle.misere_theory.specs.Games.{IsHeapUpTo};
ghost use Rattle.misere_theory.specs.Pairs.{ElementsObey};
ghost use Rattle.misere_theory.specs.Certificates.{Accepted, Canonical, claim_of};
ghost use Rattle.pair_closure.specs.ClosureViews.{SameData, begun, has_ended};
ghost use Rattle.certificate.specs.Fields.{grid_of};
ghost use Rattle.check_machine.specs.Rules.{Obeys, HeldObey};
ghost use Rattle.check_machine.specs.Closings.{HavePairs};
ghost use Rattle.check_machine.specs.Bounds.{bound_of};
ghost use Rattle.check_machine.specs.Turns.{newest};
ghost use Rattle.check_machine.specs.Turns.Phase.{Closing as AtClosing};
ghost use Rattle.checker.specs.Closes.{HasClosed, IsBroken};
ghost use Rattle.checker.specs.Stages.{Comes, arrived};

use crate::lawful_certificate::LawfulCertificate;
use crate::lines::{Lines, set_of};
use crate::paired::{Ending, Paired};
use crate::rule::obeys;
use allocation::{Memory, SmallAllocator};
use answers::{Certified, Refusal};
use certificate::{Cert, Fields};
use element_sets::LaneSet;
use misere_theory::certificates::tested_certificates_are_accepted;
use monoid_table::Phi;
use octal_code::Code;
use pair_closure::{Closure, Grown};
use std::alloc::Global;
use std::marker::Model;
use transition_algebra::Pair;

/// The pairs are closed, a product a turn, and each obeys the rule as it is kept.
#[derive(Drop)]
pub struct Closing<const LANES: usize, A: SmallAllocator = Global> {
    code: Code,
    phi: Phi<A>,
    lines: Lines<A>,
    /// The portion, in so many lanes.
    inside: LaneSet<LANES>,
    closure: Closure<LANES, A>,
}

impl<const LANES: usize, A: SmallAllocator> Model for Closing<LANES, A> {
    ghost use Rattle.checker.specs.Parts.{parts_of, whole_of};
    ghost use Rattle.std.specs.Prelude.{◌≡◌, ◌≤◌, false};
    ghost use Rattle.pair_closure.specs.ClosureViews.{has_ended};
    ghost use Rattle.check_machine.specs.Views.{ClosingView};
    ghost use Rattle.check_machine.specs.Closings.{IsClosing};
    ghost use Rattle.check_machine.specs.Rules.{HeldObey};
    ghost use Rattle.std.specs.FinSet as set;
    ghost use Rattle.std.specs.Ordering.{nat_cmp};
    ghost use Rattle.std.specs.Coded.{codes, coded_ℕ};

    ghost Value = { ClosingView };

    ghost coded = { Prim.hlevel (codes, set.code {R = nat_cmp} coded_ℕ) };

    ghost view = { λ s.
        record {
          certificate = whole_of s.lines s.code s.closure.state.table s.phi;
          closure = s.closure;
        } };

    ghost invariant = { λ s.
        IsClosing (parts_of s.lines s.code s.closure.state.table s.phi) s.inside
        s.closure.state.heaps
        × HeldObey s.inside s.closure.state.held
        × (has_ended s.closure.state ≡ false)
        × (s.closure.failed ≡ false)
        × (LANES ≤ 64) };
}

/// How far the pairs are closed.
#[derive(Clone, Copy)]
enum Looked {
    /// A turn is left to take.
    More,
    /// The members held cover every position, and each obeys the rule.
    Done,
    /// More members were kept than the limit.
    Over,
    /// The member held at this place breaks the rule.
    Broken(usize),
}

/// The place of the member held last, if one was kept since there were so many, and it breaks the
/// rule.
fn broken<const LANES: usize, A: SmallAllocator + Copy>(
    closure: &Closure<LANES, A>,
    inside: &LaneSet<LANES>,
    ever: u64,
) -> Option<usize>
    requires { ever < length closure.now.state.members → 0 < length closure.now.state.held }
    ensures some { IfSome result (IsBroken inside.now closure.now.state ever) }
    ensures none { IfNone result (ever < length closure.now.state.members
        → Obeys inside.now (newest closure.now.state).pair) }
{
    if closure.ever() <= ever {
        return None;
    }
    let newest = closure.kept() - 1;
    if obeys(inside, closure.member(newest)) {
        return None;
    }
    Some(newest)
}

/// Closes the pairs, and looks at the rule at each member in the turn that keeps it.
fn close<const LANES: usize, A: SmallAllocator + Copy>(
    closure: &mut Closure<LANES, A>,
    inside: &LaneSet<LANES>,
    left: &mut u64,
) -> Result<Looked, Memory>
    requires obey { HeldObey inside.now closure.old.state.held }
    requires going { has_ended closure.old.state ≡ false }
    requires fresh { closure.old.failed ≡ false }
    ensures closed { HasClosed inside.now closure.old left.old left.new closure.new result }
    ensures same { SameData closure.old.state closure.new.state }
{
    'members: loop {
        let before = closure.spent();
        let ever = closure.ever();
        let grown = closure.grow_to_member(*left);
        *left -= (closure.spent() - before) as u64;
        if let Some(newest) = broken(closure, inside, ever) {
            return Ok(Looked::Broken(newest));
        }
        match grown {
            Err(_) => return Err(Memory),
            Ok(Grown::Done) => return Ok(Looked::Done),
            Ok(Grown::Over) => return Ok(Looked::Over),
            Ok(Grown::More) => {
                if closure.ever() == ever {
                    return Ok(Looked::More);
                }
            }
        }
    }
}

/// The certificate, put together again.
fn accepted<A: SmallAllocator>(certificate: LawfulCertificate<A>) -> Certified<A>
    requires { Accepted certificate }
    ensures { result ≡ certificate }
{
    let LawfulCertificate {
        code,
        table,
        phi,
        lines,
    } = certificate;
    let Lines {
        portion,
        words,
        apart,
    } = lines;
    let inside = set_of(&portion);
    let cert = Cert::from_fields(Fields {
        code,
        order: table.order(),
        phi,
        portion,
        words,
        rows: table.into_rows(),
        apart,
    });
    Certified::new(cert, inside)
}

impl<const LANES: usize, A: SmallAllocator + Copy> Closing<LANES, A> {
    /// No member is held.
    pub fn new(
        alloc: A,
        certificate: LawfulCertificate<A>,
        pairs: Vec<Pair<LaneSet<LANES>>, A>,
        limit: u32,
    ) -> Self
        requires fits { certificate.order ≤ 64 * LANES }
        requires few { LANES ≤ 64 }
        requires canonical { Canonical certificate }
        requires pairs { HavePairs certificate pairs.items }
        requires elements { ElementsObey certificate.code (claim_of certificate) (IsHeapUpTo (bound_of certificate)) }
        ensures value { result
            ≡ record { certificate = certificate; closure = begun (grid_of certificate) pairs.items limit } }
    {
        let LawfulCertificate {
            code,
            table,
            phi,
            lines,
        } = certificate;
        let inside = set_of(&lines.portion);
        Closing {
            code,
            phi,
            lines,
            inside,
            closure: Closure::new(alloc, table, pairs, limit),
        }
    }

    /// Spends units until there are none or the stage ends.
    pub fn work(self, left: &mut u64) -> Result<Paired<LANES, A>, Ending<A>>
        ensures { (bytes : List ℕ) (limit : ℕ)
            → Comes bytes limit (AtClosing self) left.old left.new (arrived result) }
    {
        let Closing {
            code,
            phi,
            lines,
            inside,
            mut closure,
        } = self;
        let closed = close(&mut closure, &inside, left);
        closure.shows_pairs();
        match closed {
            Err(_) => {
                drop((phi, lines, closure));
                Err(Err(Refusal::Memory))
            }
            Ok(Looked::More) => Ok(Paired::Closing(Closing {
                code,
                phi,
                lines,
                inside,
                closure,
            })),
            Ok(Looked::Over) => {
                drop((phi, lines, closure));
                Err(Err(Refusal::Limit))
            }
            Ok(Looked::Broken(i)) => {
                let word = closure.word(i);
                drop((phi, lines, closure));
                match word {
                    Ok(position) => Err(Err(Refusal::Outcome(code, position))),
                    Err(_) => Err(Err(Refusal::Memory)),
                }
            }
            Ok(Looked::Done) => {
                let (table, _) = closure.finish();
                tested_certificates_are_accepted();
                Err(Ok(accepted(LawfulCertificate {
                    code,
                    table,
                    phi,
                    lines,
                })))
            }
        }
    }
}
