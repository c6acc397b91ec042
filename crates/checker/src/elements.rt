//! The stage that looks at the options of values inside the portion.
ghost use Rattle.std.specs.Prelude.{◌≡◌, ◌<◌, ◌≤◌, ◌^◌, ◌+◌, ◌*◌, ◌∷◌, ℕ, List, length, IfOk, IfSome, IfNone, true, false, slice_index_or};
ghost use Rattle.std.specs.FinSet as set;
ghost use Rattle.misere_theory.specs.Certificates.{IsHeapOf, Canonical};
ghost use Rattle.check_machine.specs.Closings.{HavePairs};
ghost use Rattle.answers.specs.ByteVerdicts.{refused};
ghost use Rattle.answers.specs.ByteVerdicts.ByteVerdict.{Outcome};
ghost use Rattle.pair_closure.specs.Positions.{rising};
ghost use Rattle.check_machine.specs.Turns.{keys_from, elements_turn, Runs};
ghost use Rattle.check_machine.specs.Turns.Phase.{Elements as AtElements, Ended as AtEnded};
ghost use Rattle.checker.specs.Stages.{StandsAt, arrived};

use crate::closing::Closing;
use crate::contexts::contexts;
use crate::lawful_certificate::{LawfulCertificate, is_lawful};
use crate::paired::{Ending, Paired};
use allocation::{Memory, SmallAllocator};
use answers::{Refusal, position_of, spelled_sizes_are_positions};
use element_sets::LaneSet;
use positions::Position;
use std::alloc::Global;
use std::marker::Model;
use transition_algebra::Pair;

/// The heaps and the values of options are looked at, one of each a turn: no element beside both is
/// in the portion with the heap and with its option.
#[derive(Drop)]
pub struct Elements<const LANES: usize, A: SmallAllocator = Global> {
    certificate: LawfulCertificate<A>,
    pairs: Vec<Pair<LaneSet<LANES>>, A>,
    /// For each element those that take it into the portion.
    contexts: Vec<LaneSet<LANES>, A>,
    /// The next heap, less one,
    heap: usize,
    /// and the next value.
    option: u16,
}

impl<const LANES: usize, A: SmallAllocator> Model for Elements<LANES, A> {
    ghost use Rattle.std.specs.Prelude.{◌<◌, ◌≤◌, ◌*◌, length};
    ghost use Rattle.check_machine.specs.Views.{ElementsView};
    ghost use Rattle.check_machine.specs.Closings.{ElementsSoFar};
    ghost use Rattle.std.specs.FinSet as set;
    ghost use Rattle.std.specs.Ordering.{nat_cmp};
    ghost use Rattle.std.specs.Coded.{codes, coded_ℕ};

    ghost Value = { ElementsView };

    ghost coded = { Prim.hlevel (codes, set.code {R = nat_cmp} coded_ℕ) };

    ghost view = { λ s.
        record { certificate = s.certificate; pairs = s.pairs.items; heap = s.heap; option = s.option } };

    ghost invariant = { λ s. ElementsSoFar s.certificate s.pairs.items s.contexts.items s.heap s.option
        × (s.heap < length s.pairs.items)
        × (s.certificate.order ≤ 64 * LANES)
        × (LANES ≤ 64) };
}

/// The first element below the order that is in both sets.
fn common<const LANES: usize>(a: &LaneSet<LANES>, b: &LaneSet<LANES>, order: u16) -> Option<u16>
    ensures within { IfSome result (λ y. y < order) }
    ensures first { IfSome result (λ y. set.contains a.now y ≡ true) }
    ensures second { IfSome result (λ y. set.contains b.now y ≡ true) }
    ensures least { IfSome result (λ y. (x : ℕ) → x < y → set.contains a.now x ≡ true
        → set.contains b.now x ≡ false) }
    ensures none { IfNone result ((y : ℕ) → y < order → set.contains a.now y ≡ true
        → set.contains b.now y ≡ false) }
{
    if !a.meets(b) {
        return None;
    }
    for y in 0..order {
        if a.contains(y) && b.contains(y) {
            return Some(y);
        }
    }
    None
}

/// The heaps that the keys of y spell, and one heap more.
fn position_with<A: SmallAllocator + Copy>(
    alloc: A,
    certificate: &LawfulCertificate<A>,
    heap: u64,
    y: u16,
) -> Result<Position<A>, Memory>
    requires canonical { Canonical certificate.now }
    requires heap { IsHeapOf certificate.now heap × (heap < 2 ^ 16) }
    requires element { y < certificate.now.order }
    ensures { IfOk result (λ X. X ≡ rising (heap ∷ keys_from certificate.now certificate.now.order y)) }
{
    spelled_sizes_are_positions();
    let mut position = position_of(alloc, certificate.words(), y)?;
    position.push(heap)?;
    position.heaps();
    Ok(position)
}

/// The rule fails at the heap beside the word of y.
fn breaks_rule<A: SmallAllocator + Copy>(
    alloc: A,
    certificate: LawfulCertificate<A>,
    heap: u64,
    y: u16,
) -> Refusal<A>
    requires canonical { Canonical certificate }
    requires heap { IsHeapOf certificate heap × (heap < 2 ^ 16) }
    requires element { y < certificate.order }
    ensures { StandsAt
        (AtEnded
        (Outcome certificate.code (rising (heap ∷ keys_from certificate certificate.order y))))
        (AtEnded (refused result)) }
{
    match position_with(alloc, &certificate, heap, y) {
        Ok(position) => {
            let code = certificate.code;
            drop(certificate);
            Refusal::Outcome(code, position)
        }
        Err(_) => {
            drop(certificate);
            Refusal::Memory
        }
    }
}

/// The first element that is in the portion beside the heap of the pair and beside its option.
fn breach<const LANES: usize>(
    pair: &Pair<LaneSet<LANES>>,
    contexts: &[LaneSet<LANES>],
    option: u16,
    order: u16,
) -> Option<u16>
    requires value { pair.now.value < length contexts.now }
    requires option { option < length contexts.now }
    requires below { option < order }
    ensures within { IfSome result (λ y. y < order) }
    ensures option { IfSome result (λ _. set.contains pair.now.options option ≡ true) }
    ensures heap { IfSome result
        (λ y. set.contains (slice_index_or contexts.now pair.now.value set.empty) y ≡ true) }
    ensures left { IfSome result (λ y. set.contains (slice_index_or contexts.now option set.empty) y
        ≡ true) }
    ensures least { IfSome result (λ y. (x : ℕ) → x < y
        → set.contains (slice_index_or contexts.now pair.now.value set.empty) x ≡ true
        → set.contains (slice_index_or contexts.now option set.empty) x ≡ false) }
    ensures none { IfNone result (set.contains pair.now.options option ≡ true → (y : ℕ) → y < order
        → set.contains (slice_index_or contexts.now pair.now.value set.empty) y ≡ true
        → set.contains (slice_index_or contexts.now option set.empty) y ≡ false) }
{
    if !pair.options.contains(option) {
        return None;
    }
    common(
        &contexts[pair.value as usize],
        &contexts[option as usize],
        order,
    )
}

impl<const LANES: usize, A: SmallAllocator + Copy> Elements<LANES, A> {
    /// Nothing was looked at.
    pub fn new(
        alloc: A,
        certificate: LawfulCertificate<A>,
        pairs: Vec<Pair<LaneSet<LANES>>, A>,
    ) -> Result<Self, Memory>
        requires fits { certificate.order ≤ 64 * LANES }
        requires few { LANES ≤ 64 }
        requires canonical { Canonical certificate }
        requires pairs { HavePairs certificate pairs.items }
        ensures value { IfOk result
            (λ s. s ≡ record { certificate = certificate; pairs = pairs.items; heap = 0; option = 0 }) }
    {
        let contexts = contexts(alloc, &certificate)?;
        is_lawful(&certificate);
        Ok(Elements {
            certificate,
            pairs,
            contexts,
            heap: 0,
            option: 0,
        })
    }

    /// Takes turns in place, while the stage surely goes on and there are units.
    pub fn go_on(&mut self, left: &mut u64)
        ensures { (bytes : List ℕ) (limit : ℕ)
            → Runs bytes limit (AtElements self.old) left.old left.new (AtElements self.new) }
    {
        let order = self.certificate.order();
        let last = self.pairs.len() - 1;
        'heaps: while *left > 0 {
            if breach(&self.pairs[self.heap], &self.contexts, self.option, order).is_some() {
                return;
            }
            if self.option + 1 < order {
                *left -= 1;
                self.option += 1;
                continue;
            }
            if self.heap == last {
                return;
            }
            *left -= 1;
            self.option = 0;
            self.heap += 1;
        }
    }

    /// One turn, which may end the stage.
    pub fn turn(self, alloc: A, limit: u32) -> Result<Paired<LANES, A>, Ending<A>>
        ensures { StandsAt (elements_turn limit self) (arrived result) }
    {
        let Elements {
            certificate,
            pairs,
            contexts,
            heap,
            option,
        } = self;
        let order = certificate.order();
        if let Some(y) = breach(&pairs[heap], &contexts, option, order) {
            drop((pairs, contexts));
            return Err(Err(breaks_rule(alloc, certificate, heap as u64 + 1, y)));
        }
        if option + 1 < order {
            return Ok(Paired::Elements(Elements {
                certificate,
                pairs,
                contexts,
                heap,
                option: option + 1,
            }));
        }
        if heap + 1 < pairs.len() {
            return Ok(Paired::Elements(Elements {
                certificate,
                pairs,
                contexts,
                heap: heap + 1,
                option: 0,
            }));
        }
        let closing = Closing::new(alloc, certificate, pairs, limit);
        Ok(Paired::Closing(closing))
    }
}
