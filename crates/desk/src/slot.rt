//! Jobs on a desk, each with its core and its own count of units.
ghost use Rattle.std.specs.Prelude.{◌≡◌, ◌≢◌, ◌<◌, ◌≤◌, None, Some, ℕ, IsTrue, false};
ghost use Rattle.answers.specs.ByteVerdicts.ByteVerdict.{Memory as no_memory};
ghost use Rattle.check_machine.specs.Turns.{cost};
ghost use Rattle.desk.specs.Desks.{slot_at};
ghost use Rattle.desk.specs.Slots.{HasGoneOn, IsFurthest, standing_of};

use allocation::SmallAllocator;
use checker::{Job, Progress, Refusal, checks_end};

/// Where a job stands.
#[derive(Clone, Copy, PartialEq, Eq)]
pub(crate) enum Standing {
    Going,
    /// It has its core's answer.
    Ended,
    /// Memory was wanting.
    OutOfMemory,
}

/// A job: the place of its core, the units that it has spent, and where it stands.
#[derive(Clone, Copy)]
pub(crate) struct Slot {
    pub core: usize,
    pub spent: u64,
    pub standing: Standing,
}

/// A core, worked further where the slot's job must go further than it and than every other job of
/// it; and the slot after these units. Where memory is refused the core begins again.
pub(crate) fn go_on<A: SmallAllocator + Copy>(
    core: &mut Job<A>,
    furthest: u64,
    slot: Slot,
    units: u64,
) -> Slot
    requires going { slot.standing ≡ Standing.Going }
    requires below { slot.spent < cost core.old.bytes core.old.limit }
    requires sound { core.old.ended ≢ Some no_memory }
    requires furthest { core.old.ended ≡ None → furthest < cost core.old.bytes core.old.limit }
    ensures gone { HasGoneOn core.old furthest slot units core.new result }
{
    checks_end();
    let target = slot.spent.saturating_add(units);
    let _ = core.limit();
    let done = core.spent();
    if !matches!(core.progress(), Progress::Going) {
        return reached(slot, target, done);
    }
    if target <= furthest || target <= done {
        return Slot {
            spent: target,
            ..slot
        };
    }
    core.work(target - done);
    let standing = standing_of(core);
    if standing == Standing::OutOfMemory {
        core.again();
        return Slot { standing, ..slot };
    }
    Slot {
        core: slot.core,
        spent: core.spent(),
        standing,
    }
}

/// Where a job stands that has come as far as its core.
fn standing_of<A: SmallAllocator>(core: &Job<A>) -> Standing
    ensures { result ≡ standing_of core.now.ended }
{
    match core.progress() {
        Progress::Going => Standing::Going,
        Progress::No(Refusal::Memory) => Standing::OutOfMemory,
        _ => Standing::Ended,
    }
}

/// The slot at the target, or at the cost where that is no more.
fn reached(slot: Slot, target: u64, cost: u64) -> Slot
    ensures core { result.core ≡ slot.core }
    ensures below { target < cost → (result.spent ≡ target) × (result.standing ≡ Standing.Going) }
    ensures above { cost ≤ target → (result.spent ≡ cost) × (result.standing ≡ Standing.Ended) }
{
    if target < cost {
        return Slot {
            core: slot.core,
            spent: target,
            standing: Standing::Going,
        };
    }
    Slot {
        core: slot.core,
        spent: cost,
        standing: Standing::Ended,
    }
}

/// The most units that a job of the core has spent, of those that memory wasn't wanting to.
pub(crate) fn furthest(places: &[Option<Slot>], core: usize) -> u64
    ensures { IsFurthest places.now core result }
{
    let mut most = 0;
    for place in places {
        if let Some(slot) = place {
            if slot.core == core && slot.standing != Standing::OutOfMemory && slot.spent > most {
                most = slot.spent;
            }
        }
    }
    most
}

/// Whether a job of the core is open.
pub(crate) fn is_held(places: &[Option<Slot>], core: usize) -> bool
    ensures none { (result ≡ false) → (i : ℕ) (s : Slot) → slot_at places.now i ≡ Some s
        → s.core ≢ core }
    ensures some { IsTrue result → (i : ℕ) × (s : Slot) × (slot_at places.now i ≡ Some s)
        × (s.core ≡ core) }
{
    for place in places {
        if let Some(slot) = place {
            if slot.core == core {
                return true;
            }
        }
    }
    false
}
