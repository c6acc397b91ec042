//! The stage that tries the elements that tell two apart.
ghost use Rattle.std.specs.Prelude.{◌≡◌, ◌<◌, ◌*◌, ℕ, List, IfOk};
ghost use Rattle.check_machine.specs.SoFar.{HasNoFaultBelow};
ghost use Rattle.check_machine.specs.Turns.{Runs, separating_turn};
ghost use Rattle.check_machine.specs.Turns.Phase.{Separating as AtSeparating};
ghost use Rattle.checker.specs.Separates.{GoesOn, HasLooked, HasTried, IsTold};
ghost use Rattle.checker.specs.Stages.{phase_of};

use crate::any_paired::AnyPaired;
use crate::contexts::{contexts, least_apart};
use crate::lawful_certificate::{LawfulCertificate, is_lawful};
use crate::stage::Stage;
use allocation::{Memory, SmallAllocator};
use answers::Refusal;
use element_sets::LaneSet;
use std::alloc::Global;
use std::marker::Model;

/// The elements that tell two apart are tried, one a turn: the one given is the least. The turns of
/// a pair are taken at once, as far as there are units.
#[derive(Drop)]
pub struct Separating<A: SmallAllocator = Global> {
    certificate: LawfulCertificate<A>,
    /// For each element those that take it into the portion, in as many lanes as the largest order
    /// needs.
    contexts: Vec<LaneSet<64>, A>,
    /// The smaller element of the pair that is looked at.
    x: u16,
    /// The larger element of that pair.
    y: u16,
    /// How many pairs come before it.
    number: usize,
    /// The element that is tried next on it.
    z: u16,
}

/// What comes after the turns that were taken at a pair.
#[derive(Clone, Copy)]
enum Next {
    /// The stage goes on.
    Goes,
    /// The next turn finds that another element than the least is given.
    Wrong,
    /// The next turn finds the last pair told apart by the element given.
    Over,
}

impl<A: SmallAllocator> Model for Separating<A> {
    ghost use Rattle.std.specs.Prelude.{◌<◌, length};
    ghost use Rattle.check_machine.specs.Views.{SeparatingView};
    ghost use Rattle.check_machine.specs.SoFar.{ApartSoFar};
    ghost use Rattle.check_machine.specs.Closings.{AreContexts};
    ghost use Rattle.std.specs.FinSet as set;
    ghost use Rattle.std.specs.Ordering.{nat_cmp};
    ghost use Rattle.std.specs.Coded.{codes, coded_ℕ};

    ghost Value = { SeparatingView };

    ghost coded = { Prim.hlevel (codes, set.code {R = nat_cmp} coded_ℕ) };

    ghost view = { λ s.
        record { certificate = s.certificate; x = s.x; y = s.y; number = s.number; z = s.z } };

    ghost invariant = { λ s. ApartSoFar s.certificate s.x s.y s.z s.number
        × (s.number < length s.certificate.apart)
        × AreContexts s.certificate s.contexts.items };
}

impl<A: SmallAllocator + Copy> Separating<A> {
    /// No pair was looked at.
    pub fn new(alloc: A, certificate: LawfulCertificate<A>) -> Result<Separating<A>, Memory>
        requires { HasNoFaultBelow 6 certificate }
        ensures value { IfOk result
            (λ s. s ≡ record { certificate = certificate; x = 0; y = 1; number = 0; z = 0 }) }
    {
        is_lawful(&certificate);
        let contexts = contexts(alloc, &certificate)?;
        Ok(Separating {
            certificate,
            contexts,
            x: 0,
            y: 1,
            number: 0,
            z: 0,
        })
    }

    /// Tries the elements of the pair, a turn each, as far as there are units, up to the least that
    /// tells it apart or the one given, whichever comes first. Whether these two are one.
    fn try_elements(&mut self, left: &mut u64) -> bool
        ensures { HasTried self.old left.old left.new self.new result }
    {
        is_lawful(&self.certificate);
        let given = self.certificate.apart(self.number);
        let least = least_apart(&self.certificate, &self.contexts, self.x, self.y);
        let tried = (*left).min((least.min(given) - self.z) as u64);
        *left -= tried;
        self.z += tried as u16;
        least == given
    }

    /// Goes to the next pair, if there is one.
    fn next_pair(&mut self) -> bool
        requires { IsTold self.old }
        ensures { GoesOn self.old self.new result }
    {
        let pairs = self.certificate.pairs();
        if self.number + 1 == pairs {
            return false;
        }
        self.z = 0;
        self.number += 1;
        self.y += 1;
        if self.y == self.certificate.order() {
            self.x += 1;
            self.y = self.x + 1;
        }
        true
    }

    /// Takes the turns of a pair, as far as there are units, and goes to the next pair. A turn that
    /// ends the stage isn't taken.
    fn look(&mut self, left: &mut u64) -> Next
        requires { 0 < left.old }
        ensures { HasLooked self.old left.old left.new self.new result }
    {
        let is_right = self.try_elements(left);
        if *left == 0 {
            return Next::Goes;
        }
        if !is_right {
            return Next::Wrong;
        }
        if !self.next_pair() {
            return Next::Over;
        }
        *left -= 1;
        Next::Goes
    }

    /// Takes turns in place, while the stage surely goes on and there are units.
    pub fn go_on(&mut self, left: &mut u64)
        ensures { (bytes : List ℕ) (limit : ℕ)
            → Runs bytes limit (AtSeparating self.old) left.old left.new (AtSeparating self.new) }
    {
        'pairs: while *left > 0 {
            if !matches!(self.look(left), Next::Goes) {
                return;
            }
        }
    }

    /// One turn, which may end the stage.
    pub fn turn(mut self, alloc: A) -> Stage<A>
        ensures { (limit : ℕ) → phase_of result ≡ separating_turn limit self }
    {
        match self.look(&mut 1) {
            Next::Goes => Stage::Separating(self),
            Next::Wrong => Stage::Ended(Err(Refusal::Apart)),
            Next::Over => Stage::Pairs(AnyPaired::new(alloc, self.certificate)),
        }
    }
}
