//! How a closure grows: one product a turn.
ghost use Rattle.std.specs.Prelude.{◌≡◌, ◌↔◌, ◌<◌, ◌≤◌, ◌+◌, true, false, ℕ, length, Ok, OnOk, OnErr, IsErr};
ghost use Rattle.transition_algebra.specs.Pairs.{one};
ghost use Rattle.pair_closure.specs.Turns.{SameData, KeepsNext, is_done, is_over, has_ended, KeepsEmpty, Multiplies, TriesHeap};
ghost use Rattle.pair_closure.specs.ClosureViews.{moved, step, steps, stopped};
ghost use Rattle.pair_closure.specs.Calls.{Goes, Grows, IsLimited, ended, ended_or_kept};
ghost use Rattle.pair_closure.specs.Keeping.{KeepsOne, GrowsToMember};
ghost use Rattle.pair_closure.specs.Positions.{IsClosedOver, IsExceeded};

use crate::closure::Closure;
use crate::members::Member;
use crate::settle::{Held, add, begin, hold, pending, settle_heap, settle_product};
use allocation::{Memory, SmallAllocator};
use element_sets::LaneSet;
use monoid_table::CommMonoid;
use std::alloc::AllocError;
use transition_algebra::{Pair, Pairs};

/// Where a closure stands.
#[derive(Clone, Copy, Debug, PartialEq, Eq)]
pub enum Grown {
    /// A turn is left to take.
    More,
    /// The pairs held cover the pair of each position.
    Done,
    /// One member more than the limit was kept.
    Over,
}

/// What the next turn does.
#[derive(Clone, Copy)]
enum Task {
    KeepEmpty,
    Multiply(usize),
    TryHeap,
    Done,
    Over,
}

/// The pair of the empty position.
fn empty<const LANES: usize>() -> Pair<LaneSet<LANES>>
    ensures { result ≡ one }
{
    Pair {
        value: 0,
        options: LaneSet::new(),
    }
}

impl<const LANES: usize, A: SmallAllocator + Copy> Closure<LANES, A> {
    /// What the next turn does.
    fn task(&self) -> Task
        ensures empty { result ≡ Task.KeepEmpty → KeepsEmpty self.now.state }
        ensures multiply { (at : ℕ) → result ≡ Task.Multiply at → Multiplies self.now.state at }
        ensures heap { result ≡ Task.TryHeap → TriesHeap self.now.state }
        ensures done { result ≡ Task.Done → is_done self.now.state ≡ true }
        ensures over { result ≡ Task.Over → is_over self.now.state ≡ true }
    {
        if self.members.len() > self.limit as usize {
            return Task::Over;
        }
        if self.members.len() == 0 {
            return Task::KeepEmpty;
        }
        let at = pending(&self.held, self.generators.len(), self.from);
        if at < self.held.len() {
            return Task::Multiply(at);
        }
        if self.next < self.heaps.len() {
            return Task::TryHeap;
        }
        Task::Done
    }

    /// The pair of the empty position is the first member.
    fn keep_empty(&mut self) -> Result<(), AllocError>
        requires { KeepsEmpty self.old.state }
        ensures ok { OnOk result (self.new ≡ moved self.old) }
        ensures err { OnErr result (self.new ≡ self.old) }
        ensures keeps { IsErr result → KeepsNext self.old.state }
    {
        let by = self.heaps.len();
        let first = Member {
            pair: empty(),
            parent: 0,
            heap: 0,
        };
        add(&mut self.members, &mut self.held, first)?;
        hold(&mut self.held, empty(), 0, by, true);
        self.spent += 1;
        Ok(())
    }

    /// The member held at the place is multiplied by its next generator.
    fn multiply(&mut self, at: usize) -> Result<(), AllocError>
        requires { Multiplies self.old.state at }
        ensures ok { OnOk result (self.new ≡ moved self.old) }
        ensures err { OnErr result (self.new ≡ self.old) }
        ensures keeps { IsErr result → KeepsNext self.old.state }
    {
        let member = &self.held[at];
        let generator = &self.generators[member.by];
        let pairs = Pairs { table: &self.table };
        let product = pairs.times(&member.pair, &generator.pair);
        let multiplied = Held {
            pair: member.pair,
            place: member.place,
            by: member.by + 1,
        };
        let anew = settle_product(
            &mut self.members,
            &mut self.held,
            at,
            multiplied,
            product,
            generator.heap,
        )?;
        self.from = begin(anew, at);
        self.spent += 1;
        Ok(())
    }

    /// The empty member is multiplied by the next heap.
    fn try_heap(&mut self) -> Result<(), AllocError>
        requires { TriesHeap self.old.state }
        ensures ok { OnOk result (self.new ≡ moved self.old) }
        ensures err { OnErr result (self.new ≡ self.old) }
        ensures keeps { IsErr result → KeepsNext self.old.state }
    {
        let pair = self.heaps[self.next];
        let heap = self.next + 1;
        let anew = settle_heap(
            &mut self.members,
            &mut self.held,
            &mut self.generators,
            pair,
            heap,
        )?;
        self.next = heap;
        self.from = begin(anew, self.held.len());
        self.spent += 1;
        Ok(())
    }

    /// Takes the next turn, and answers whether one was left.
    fn take(&mut self) -> Result<bool, AllocError>
        ensures ok { OnOk result (self.new ≡ step self.old) }
        ensures left { result ≡ Ok true → has_ended self.old.state ≡ false }
        ensures last { result ≡ Ok false → has_ended self.old.state ≡ true }
        ensures err { OnErr result (self.new ≡ self.old) }
        ensures refused { IsErr result → has_ended self.old.state ≡ false }
        ensures keeps { IsErr result → KeepsNext self.old.state }
    {
        match self.task() {
            Task::KeepEmpty => {
                self.keep_empty()?;
                Ok(true)
            }
            Task::Multiply(at) => {
                self.multiply(at)?;
                Ok(true)
            }
            Task::TryHeap => {
                self.try_heap()?;
                Ok(true)
            }
            Task::Done => Ok(false),
            Task::Over => Ok(false),
        }
    }

    /// Looks for the member that is multiplied next, so that a later look begins there.
    fn seek(&mut self)
        ensures { self.new ≡ self.old }
    {
        self.from = pending(&self.held, self.generators.len(), self.from);
    }

    /// A growth was refused: it stays where it is, for good.
    fn stop(&mut self)
        ensures { self.new ≡ stopped self.old }
    {
        self.failed = true;
    }

    /// Where it stands, or `Memory` once a growth was refused.
    fn standing(&self) -> Result<Grown, Memory>
        ensures limit { IsLimited self.now.state }
        ensures refused { IsErr result ↔ (self.now.failed ≡ true) }
        ensures more { result ≡ Ok Grown.More → has_ended self.now.state ≡ false }
        ensures done { result ≡ Ok Grown.Done → is_done self.now.state ≡ true }
        ensures over { result ≡ Ok Grown.Over → is_over self.now.state ≡ true }
        ensures closed { result ≡ Ok Grown.Done → IsClosedOver self.now.state }
        ensures exceeded { result ≡ Ok Grown.Over → IsExceeded self.now.state }
    {
        self.shows_pairs();
        if self.failed {
            return Err(Memory);
        }
        match self.task() {
            Task::KeepEmpty => Ok(Grown::More),
            Task::Multiply(_at) => Ok(Grown::More),
            Task::TryHeap => Ok(Grown::More),
            Task::Done => Ok(Grown::Done),
            Task::Over => Ok(Grown::Over),
        }
    }

    /// A turn for each unit, until it has ended or memory is refused to one.
    fn take_turns(&mut self, units: u64)
        requires { self.old.failed ≡ false }
        ensures { Goes ended units self.old self.new }
    {
        for _unit in 0..units {
            match self.take() {
                Ok(true) => {}
                Ok(false) => return,
                Err(_) => {
                    self.stop();
                    return;
                }
            }
        }
    }

    /// The same, up to a turn that keeps a member.
    fn turn_to_member(&mut self, units: u64)
        requires { self.old.failed ≡ false }
        ensures { Goes (ended_or_kept self.old) units self.old self.new }
    {
        let ever = self.ever();
        for _turn in 0..units {
            match self.take() {
                Ok(true) => {
                    if self.ever() > ever {
                        self.seek();
                        return;
                    }
                }
                Ok(false) => return,
                Err(_) => {
                    self.stop();
                    return;
                }
            }
        }
    }

    /// Takes so many turns, or fewer where it ends, and answers where it stands then. A turn is one
    /// product of a member with a heap's pair, where the pair of a heap that is tried is its
    /// product with the empty member.
    ///
    /// The answer and what is held depend on the turns taken in all, however they were cut; past
    /// the end nothing changes. After `Memory`, for a refused growth, what is held is that of the
    /// turns before, and every later call answers `Memory`. It comes first at a turn that keeps a
    /// member, since no other turn asks for memory.
    pub fn grow(&mut self, units: u64) -> Result<Grown, Memory>
        // A turn for a unit until it has ended, and no turn after that; a turn that memory is
        // refused to isn't taken, and would have kept a member.
        ensures grows { Grows ended units result self.old self.new }
        ensures limit { IsLimited self.new.state }
        ensures turns { OnOk result (self.new ≡ steps units self.old) }
        ensures more { result ≡ Ok Grown.More → has_ended self.new.state ≡ false }
        ensures done { result ≡ Ok Grown.Done → is_done self.new.state ≡ true }
        ensures over { result ≡ Ok Grown.Over → is_over self.new.state ≡ true }

        // Done: the pairs held cover that of each position. Over: there are more pairs of positions
        // than the limit.
        ensures closed { result ≡ Ok Grown.Done → IsClosedOver self.new.state }
        ensures exceeded { result ≡ Ok Grown.Over → IsExceeded self.new.state }

        // A refused growth stops it where it is, for good.
        ensures refused { OnErr result ((n : ℕ) × (n ≤ units)
            × (self.new ≡ stopped (steps n self.old))) }
        ensures stays_refused { self.old.failed ≡ true → IsErr result }
        ensures stays { self.old.failed ≡ true → self.new ≡ self.old }

        ensures data { SameData self.old.state self.new.state }
        ensures few { length self.new.state.members ≤ length self.old.state.members + units }
        ensures spent { result ≡ Ok Grown.More → self.new.spent ≡ self.old.spent + units }
        ensures spent_range { (self.old.spent ≤ self.new.spent)
            × (self.new.spent ≤ self.old.spent + units) }
    {
        if self.failed {
            self.shows_pairs();
            return Err(Memory);
        }
        self.take_turns(units);
        self.standing()
    }

    /// Takes turns as `grow` does, but stops after one that keeps a member. That member is then the
    /// last one held.
    pub fn grow_to_member(&mut self, units: u64) -> Result<Grown, Memory>
        ensures grows { Grows (ended_or_kept self.old) units result self.old self.new }
        ensures limit { IsLimited self.new.state }
        ensures turns { OnOk result (GrowsToMember units self.old self.new) }
        ensures more { result ≡ Ok Grown.More → has_ended self.new.state ≡ false }
        ensures done { result ≡ Ok Grown.Done → is_done self.new.state ≡ true }
        ensures over { result ≡ Ok Grown.Over → is_over self.new.state ≡ true }
        ensures closed { result ≡ Ok Grown.Done → IsClosedOver self.new.state }
        ensures exceeded { result ≡ Ok Grown.Over → IsExceeded self.new.state }
        ensures refused { OnErr result ((n : ℕ) × (n ≤ units)
            × (self.new ≡ stopped (steps n self.old))) }
        ensures stays_refused { self.old.failed ≡ true → IsErr result }
        ensures stays { self.old.failed ≡ true → self.new ≡ self.old }
        ensures data { SameData self.old.state self.new.state }
        ensures kept { KeepsOne self.old.state self.new.state }
        ensures costs { length self.old.state.members < length self.new.state.members
            → self.old.spent < self.new.spent }
        ensures spent { result ≡ Ok Grown.More
            → length self.new.state.members ≡ length self.old.state.members
            → self.new.spent ≡ self.old.spent + units }
        ensures spent_range { (self.old.spent ≤ self.new.spent)
            × (self.new.spent ≤ self.old.spent + units) }
    {
        if self.failed {
            self.shows_pairs();
            return Err(Memory);
        }
        self.turn_to_member(units);
        self.standing()
    }
}
