//! What a turn writes: members kept and given up, and the generators.
ghost use Rattle.std.specs.Prelude.{◌≡◌, ◌<◌, ◌≤◌, false, true, ℕ, length, filter, not, cond, Ok, OnOk, OnErr, IsErr, slice_index_or, slice_set, vec_len};
ghost use Rattle.std.specs.Vec.{vec_capacity};
ghost use Rattle.transition_algebra.specs.Pairs as covering;
ghost use Rattle.pair_closure.specs.Turns.{Tell, covers_any, covers_held, members_with, members_after, held_with, held_after, generators_with, covered, blank_held, first_pending, NoneBefore};

use crate::covering::covers;
use crate::members::{Member, Members};
use element_sets::{ElementSet, LaneSet};
use std::alloc::{AllocError, Allocator};
use transition_algebra::Pair;

/// A member held: its place among those ever kept, and by how many generators it was multiplied.
#[derive(Clone, Copy)]
pub struct Held<S = ElementSet> {
    pub pair: Pair<S>,
    pub place: usize,
    pub by: usize,
}

/// A heap whose pair no member covered. Members are multiplied by these alone.
#[derive(Clone, Copy)]
pub struct Generator<S = ElementSet> {
    pub pair: Pair<S>,
    pub heap: usize,
}

/// The first member held, from `from` on, that some generator hasn't multiplied, or how many are
/// held.
pub(crate) fn pending<const LANES: usize>(
    held: &[Held<LaneSet<LANES>>],
    generators: usize,
    from: usize,
) -> usize
    requires before { NoneBefore held.now generators from }
    ensures value { result ≡ first_pending held.now generators }
    ensures within { result ≤ length held.now }
{
    let mut at = from.min(held.len());
    while at < held.len() && held[at].by >= generators {
        at += 1;
    }
    at
}

/// Makes room for one more member, and adds it. The answer is true unless it covers no member at
/// all.
pub(crate) fn add<const LANES: usize, A: Allocator + Copy>(
    members: &mut Members<LANES, A>,
    held: &mut Vec<Held<LaneSet<LANES>>, A>,
    member: Member<LaneSet<LANES>>,
) -> Result<bool, AllocError>
    ensures members { OnOk result
        (members.new ≡ members_with members.old member.entry.pair member.entry.parent member.entry.heap) }
    ensures room { OnOk result (vec_len held.new < vec_capacity held.new) }
    ensures alone { result ≡ Ok false → covers_any member.entry.pair members.old ≡ false }
    ensures held { held.new.items ≡ held.old.items }
    ensures err { OnErr result (members.new ≡ members.old) }
{
    held.reserve(1)?;
    let covers_some = members.covers_any(&member.pair);
    members.push(member)?;
    Ok(covers_some)
}

/// Gives up the members that x covers.
fn give_up<const LANES: usize, A: Allocator>(
    held: &mut Vec<Held<LaneSet<LANES>>, A>,
    x: &Pair<LaneSet<LANES>>,
    covers_some: bool,
)
    requires { covers_some ≡ false → covers_held x.now held.old.items ≡ false }
    ensures held { held.new.items ≡ filter (λ m. not (covering.covers x.now m.pair))
        held.old.items }
    ensures len { vec_len held.new ≤ vec_len held.old }
    ensures capacity { vec_capacity held.new ≡ vec_capacity held.old }
{
    if !covers_some {
        return;
    }
    held.retain(
        |member: &Held<LaneSet<LANES>>| -> bool
            ensures { result ≡ not (covering.covers x.entry.now member.now.pair) }
        { !covers(x, &member.pair) },
    );
}

/// Holds x, and gives up the members that it covers.
pub(crate) fn hold<const LANES: usize, A: Allocator>(
    held: &mut Vec<Held<LaneSet<LANES>>, A>,
    x: Pair<LaneSet<LANES>>,
    place: usize,
    by: usize,
    covers_some: bool,
)
    requires room { vec_len held.old < vec_capacity held.old }
    requires some { covers_some ≡ false → covers_held x held.old.items ≡ false }
    ensures { held.new.items ≡ held_with held.old.items x.entry place by }
{
    give_up(held, &x, covers_some);
    held.push_reserved(Held { pair: x, place, by });
}

/// The member held at the place was multiplied once more, by the generator of this heap. The answer
/// is true unless all that are held before it stay.
pub(crate) fn settle_product<const LANES: usize, A: Allocator + Copy>(
    members: &mut Members<LANES, A>,
    held: &mut Vec<Held<LaneSet<LANES>>, A>,
    at: usize,
    multiplied: Held<LaneSet<LANES>>,
    product: Pair<LaneSet<LANES>>,
    heap: usize,
) -> Result<bool, AllocError>
    requires within { at < length held.old.items }
    requires same { multiplied.pair ≡ (slice_index_or held.old.items at blank_held).pair }
    requires tell { Tell members.old held.old.items product }
    ensures members { OnOk result
        (members.new ≡ members_after members.old held.old.items product.entry multiplied.entry.place heap) }
    ensures held { OnOk result
        (held.new.items ≡ held_after held.old.items (slice_set held.old.items at multiplied.entry) product.entry
        (length members.old)) }
    ensures before { result ≡ Ok false → (k : ℕ) → k < at
        → slice_index_or held.new.items k blank_held ≡ slice_index_or held.old.items k blank_held }
    ensures keeps { IsErr result → covered held.old.items product.entry ≡ false }
    ensures err_members { OnErr result (members.new ≡ members.old) }
    ensures err_held { OnErr result (held.new.items ≡ held.old.items) }
{
    if members.any_covers(&product) {
        held[at] = multiplied;
        return Ok(false);
    }
    let place = members.len();
    let member = Member {
        pair: product,
        parent: multiplied.place,
        heap,
    };
    let covers_some = add(members, held, member)?;
    held[at] = multiplied;
    hold(held, product, place, 0, covers_some);
    Ok(covers_some)
}

/// A heap was tried. The answer is whether its pair was kept.
pub(crate) fn settle_heap<const LANES: usize, A: Allocator + Copy>(
    members: &mut Members<LANES, A>,
    held: &mut Vec<Held<LaneSet<LANES>>, A>,
    generators: &mut Vec<Generator<LaneSet<LANES>>, A>,
    pair: Pair<LaneSet<LANES>>,
    heap: usize,
) -> Result<bool, AllocError>
    requires tell { Tell members.old held.old.items pair }
    ensures members { OnOk result
        (members.new ≡ members_after members.old held.old.items pair.entry 0 heap) }
    ensures held { OnOk result
        (held.new.items ≡ held_after held.old.items held.old.items pair.entry (length members.old)) }
    ensures generators { OnOk result (generators.new.items
        ≡ cond (covered held.old.items pair.entry) generators.old.items
        (generators_with generators.old.items pair.entry heap)) }
    ensures kept { result ≡ Ok false → covered held.old.items pair.entry ≡ true }
    ensures keeps { IsErr result → covered held.old.items pair.entry ≡ false }
    ensures err_members { OnErr result (members.new ≡ members.old) }
    ensures err_held { OnErr result (held.new.items ≡ held.old.items) }
    ensures err_generators { OnErr result (generators.new.items ≡ generators.old.items) }
{
    if members.any_covers(&pair) {
        return Ok(false);
    }
    generators.reserve(1)?;
    let place = members.len();
    let member = Member {
        pair,
        parent: 0,
        heap,
    };
    let covers_some = add(members, held, member)?;
    hold(held, pair, place, 0, covers_some);
    generators.push_reserved(Generator { pair, heap });
    Ok(true)
}

/// Where the look for the next member to multiply may begin.
pub(crate) fn begin(anew: bool, at: usize) -> usize
    ensures { result ≡ cond anew 0 at }
{
    if anew { 0 } else { at }
}
