//! A walk over the options of a heap.
ghost use Rattle.std.specs.Iterator.{YieldsFirst, item_count};
ghost use Rattle.std.specs.Prelude.{◌≡◌, ◌+◌, ◌-◌, ◌<◌, ◌≤◌, ◌↔◌, [], ◌∷◌, length, min, true, false, IsTrue};
ghost use Rattle.std.specs.Option.{MatchOption};
ghost use Rattle.misere_theory.specs.Games.{IsCode};
ghost use Rattle.octal_code.specs.Bits.{allows};
ghost use Rattle.octal_code.specs.declared.leaving.Leaving.TheVariants.{ThreeHeaps};
ghost use Rattle.heap_options.specs.Options.{last_first};
ghost use Rattle.heap_options.specs.Walks.{rest, begun, single_left, splits_to_try, triples_to_try, after_single, after_splits, at_triples, after_triples, after_row, after_all, IsTurn};

use crate::left::Left;
use octal_code::{Code, Leaving};
use std::marker::Model;

/// What is still to be tried of the options that take the same number away.
#[derive(Clone, Copy)]
pub enum Untried {
    /// Each of them: first the one that leaves at most one heap, if there is one.
    Everything,
    /// The splits from this smaller part on, and the triples.
    Splits(u64),
    /// The triples with this first part, the second from the other number on, and those with a
    /// larger first part.
    Triples(u64, u64),
}

/// Where a walk over the options of a heap stands: the heap, how large a part of a split or a triple
/// that it tries may be, the largest part aside, what is taken away, and what is untried of that.
#[derive(Clone, Copy)]
pub struct Walk {
    pub heap: u64,
    pub most: u64,
    pub away: u64,
    pub untried: Untried,
}

impl Walk {
    /// A walk at the first option of a heap.
    #[inline]
    pub fn new(heap: u64, most: u64) -> Walk
        ensures { result ≡ begun heap most }
    {
        Walk {
            heap,
            most,
            away: 0,
            untried: Untried::Everything,
        }
    }

    /// Whether more is taken away than any digit stands for: no option is left.
    #[inline]
    pub fn is_over(&self, code: &Code) -> bool
        ensures over { IsTrue result ↔ (length code.now ≤ self.now.away) }
        ensures code { IsCode code.now }
    {
        self.away > code.last() as u64
    }

    /// The option that leaves at most one heap, if there is one; then the splits are untried.
    #[inline]
    #[tactic(auto, using(crate::proofs::WalkLaws::single_nothing, crate::proofs::WalkLaws::single_one, crate::proofs::WalkLaws::single_none))]
    pub fn take_single(&mut self, code: &Code) -> Option<Left>
        ensures left { MatchOption result (single_left code.now self.old.heap self.old.away ≡ [])
            (λ left. single_left code.now self.old.heap self.old.away ≡ left ∷ []) }
        ensures walk { self.new ≡ after_single self.old }
    {
        self.untried = Untried::Splits(1);
        if code.takes_all(self.heap, self.away) {
            Some(Left::Nothing)
        } else if code.leaves_one(self.heap, self.away) {
            Some(Left::One(self.heap - self.away))
        } else {
            None
        }
    }

    /// What stays of the heap.
    #[inline]
    pub fn whole(&self) -> u64
        ensures { result ≡ self.now.heap - self.now.away }
    {
        self.heap.saturating_sub(self.away)
    }

    /// How many splits there are, the smaller part from `part` on.
    #[inline]
    fn splits_to_try(&self, code: &Code, part: u64) -> u64
        ensures { result
            ≡ splits_to_try code.now self.now.heap self.now.most self.now.away part }
    {
        if code.allows(self.away, Leaving::TwoHeaps) {
            let last = (self.whole() / 2).min(self.most);
            (last + 1).saturating_sub(part)
        } else {
            0
        }
    }

    /// Passes the splits, the smaller part from `part` on, at most `most` of them. The answer is
    /// how many were passed.
    #[inline]
    pub fn pass_splits(&mut self, code: &Code, part: u64, most: u64) -> u64
        ensures count { result ≡ min most
            (splits_to_try code.now self.old.heap self.old.most self.old.away part) }
        ensures none { result ≡ 0 → self.new ≡ self.old }
        ensures some { 1 ≤ result → self.new ≡ after_splits self.old part result }
    {
        let count = most.min(self.splits_to_try(code, part));
        if count > 0 {
            self.untried = Untried::Splits(part + count);
        }
        count
    }

    /// The largest first part of a triple.
    #[inline]
    pub fn last_first(&self) -> u64
        ensures { result ≡ last_first (self.now.heap - self.now.away) self.now.most }
    {
        (self.whole() / 3).min(self.most)
    }

    /// How many triples there are with this first part, the second from `part` on.
    #[inline]
    fn triples_to_try(&self, code: &Code, first: u64, part: u64) -> u64
        ensures { result
            ≡ triples_to_try code.now self.now.heap self.now.most self.now.away first part }
    {
        if code.allows(self.away, Leaving::ThreeHeaps) {
            let last = (self.whole().saturating_sub(first) / 2).min(self.most);
            (last + 1).saturating_sub(part)
        } else {
            0
        }
    }

    /// Passes the triples with this first part, the second from `part` on, at most `most` of them.
    /// The answer is how many were passed.
    #[inline]
    pub fn pass_triples(&mut self, code: &Code, first: u64, part: u64, most: u64) -> u64
        ensures count { result ≡ min most
            (triples_to_try code.now self.old.heap self.old.most self.old.away first part) }
        ensures none { result ≡ 0 → self.new ≡ self.old }
        ensures some { 1 ≤ result → self.new ≡ after_triples self.old first part result }
    {
        let count = most.min(self.triples_to_try(code, first, part));
        if count > 0 {
            self.untried = Untried::Triples(first, part + count);
        }
        count
    }

    /// Once the triples with this first part are passed, turns to those with the next one, or takes
    /// one more away where there is none.
    #[inline]
    pub fn pass_row(&mut self, code: &Code, first: u64)
        ensures row { first < last_first (self.old.heap - self.old.away) self.old.most
            → self.new ≡ after_row self.old first }
        ensures more { last_first (self.old.heap - self.old.away) self.old.most ≤ first
            → self.old.away < length code.now → self.new ≡ after_all self.old }
        ensures over { last_first (self.old.heap - self.old.away) self.old.most ≤ first
            → length code.now ≤ self.old.away → self.new ≡ self.old }
    {
        if first < self.last_first() {
            self.untried = Untried::Triples(first + 1, first + 1);
        } else {
            self.take_more(code);
        }
    }

    /// Once the splits are passed, turns to the triples, or takes one more away where no triple may
    /// be left.
    #[inline]
    pub fn pass_last_split(&mut self, code: &Code)
        ensures triples { allows code.now self.old.away ThreeHeaps ≡ true
            → self.new ≡ at_triples self.old }
        ensures more { allows code.now self.old.away ThreeHeaps ≡ false
            → self.old.away < length code.now → self.new ≡ after_all self.old }
        ensures over { allows code.now self.old.away ThreeHeaps ≡ false
            → length code.now ≤ self.old.away → self.new ≡ self.old }
    {
        if code.allows(self.away, Leaving::ThreeHeaps) {
            self.untried = Untried::Triples(1, 1);
        } else {
            self.take_more(code);
        }
    }

    /// Takes one more away. A walk that is over stays as it is.
    #[inline]
    pub fn take_more(&mut self, code: &Code)
        ensures more { self.old.away < length code.now → self.new ≡ after_all self.old }
        ensures over { length code.now ≤ self.old.away → self.new ≡ self.old }
    {
        if !self.is_over(code) {
            self.away += 1;
            self.untried = Untried::Everything;
        }
    }

    fn turn(&mut self, code: &Code) -> Option<Left>
        requires { self.old.away < length code.now }
        ensures { IsTurn code.now self.old result self.new }
    {
        match self.untried {
            Untried::Everything => self.take_single(code),
            Untried::Splits(part) => {
                if self.pass_splits(code, part, 1) == 0 {
                    self.pass_last_split(code);
                    return None;
                }
                Some(Left::Two(part, self.whole() - part))
            }
            Untried::Triples(first, second) => {
                if self.pass_triples(code, first, second, 1) == 0 {
                    self.pass_row(code, first);
                    return None;
                }
                let rest = self.whole().saturating_sub(first);
                Some(Left::Three(first, second, rest.saturating_sub(second)))
            }
        }
    }

    fn next(&mut self, code: &Code) -> Option<Left>
        ensures { YieldsFirst (rest code.now) self.old result self.new }
    {
        while !self.is_over(code) {
            if let Some(left) = self.turn(code) {
                return Some(left);
            }
        }
        None
    }
}

/// The options of a heap, seen as the list of those that are still to come.
#[derive(Drop)]
pub struct Options {
    pub(crate) code: Code,
    pub(crate) walk: Walk,
}

impl Model for Options {
    ghost use Rattle.std.specs.Prelude.{List};
    ghost use Rattle.heap_options.specs.declared.left.Left.{Left};

    ghost Value = { List Left };

    ghost use Rattle.heap_options.specs.Walks.{rest};

    ghost view = { λ o. rest o.code o.walk };
}

impl Iterator for Options {
    type Item = Left;

    ghost next_gives = { YieldsFirst (λ left. left) };

    ghost remaining = { item_count (λ left. left) };

    fn next(&mut self) -> Option<Left> {
        self.walk.next(&self.code)
    }
}
