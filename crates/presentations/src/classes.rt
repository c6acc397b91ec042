//! Classes of the box's vectors: joined until they are those of the least congruence that holds the
//! relations.
ghost use Rattle.std.specs.Prelude.{◌≡◌, ◌≢◌, ◌<◌, ◌^◌, ℕ, IfOk, IfSome, IfNone, OnErr, Err, length, slice_index, sum};
ghost use Rattle.presentations.specs.Boxes.{size_of};
ghost use Rattle.presentations.specs.Merging.{AreRelated, IsBox, IsGap, Shrinks, AreFirsts, RelationsHold, StepsHold, StepsHoldAt, AreClosed, AreClasses};
ghost use Rattle.presentations.specs.Numberings.{AreRoots};

use crate::axes::Axis;
use crate::fault::PresFault;
use crate::merging::Merging;
use crate::read::Relation;
use std::alloc::Allocator;

/// The first vector of the class, by pointers that get shorter on the way.
fn first_of<A: Allocator>(merging: &mut Merging<'_, A>, from: usize) -> usize
    requires { from < size_of merging.old.axes }
    ensures within { result < size_of merging.old.axes }
    ensures related { AreRelated merging.old.axes merging.old.relations from result }
    ensures first { slice_index merging.new.parents result ≡ result }
    ensures stay { (u : ℕ) → slice_index merging.old.parents u ≡ u
        → slice_index merging.new.parents u ≡ u }
    ensures kept { Shrinks merging.old merging.new }
{
    let mut at = from;
    let mut parent = merging.parent(at);
    while parent != at {
        let above = merging.parent(parent);
        merging.point(at, above);
        at = parent;
        parent = above;
    }
    at
}

/// Points the later one of two firsts to the other one.
fn link<A: Allocator>(merging: &mut Merging<'_, A>, x: usize, y: usize) -> Result<(), PresFault>
    requires x_in { x < size_of merging.old.axes }
    requires y_in { y < size_of merging.old.axes }
    requires x_first { slice_index merging.old.parents x ≡ x }
    requires y_first { slice_index merging.old.parents y ≡ y }
    requires differ { x ≢ y }
    requires related { AreRelated merging.old.axes merging.old.relations x y }
    ensures kept { Shrinks merging.old merging.new }
    ensures fewer { IfOk result (λ _. sum merging.new.parents < sum merging.old.parents) }
    ensures refused { OnErr result (result ≡ Err PresFault.Memory) }
{
    merging.wait(x, y)?;
    if x < y {
        merging.point(y, x);
    } else {
        merging.point(x, y);
    }
    Ok(())
}

/// Makes one class of two.
fn join<A: Allocator>(merging: &mut Merging<'_, A>, u: usize, v: usize) -> Result<(), PresFault>
    requires u_in { u < size_of merging.old.axes }
    requires v_in { v < size_of merging.old.axes }
    requires related { AreRelated merging.old.axes merging.old.relations u v }
    ensures kept { Shrinks merging.old merging.new }
    ensures refused { OnErr result (result ≡ Err PresFault.Memory) }
{
    let x = first_of(merging, u);
    let y = first_of(merging, v);
    if x != y {
        link(merging, x, y)?;
    }
    Ok(())
}

/// Joins, beside each letter, what a joined pair is.
fn join_beside<A: Allocator>(
    merging: &mut Merging<'_, A>,
    u: usize,
    v: usize,
) -> Result<(), PresFault>
    requires u_in { u < size_of merging.old.axes }
    requires v_in { v < size_of merging.old.axes }
    requires related { AreRelated merging.old.axes merging.old.relations u v }
    ensures kept { Shrinks merging.old merging.new }
    ensures refused { OnErr result (result ≡ Err PresFault.Memory) }
{
    for i in 0..merging.letters() {
        let x = merging.next(i, u);
        let y = merging.next(i, v);
        merging.is_box();
        join(merging, x, y)?;
    }
    Ok(())
}

/// Looks at the pairs that were joined, until none is left.
fn spread<A: Allocator>(merging: &mut Merging<'_, A>) -> Result<(), PresFault>
    ensures kept { Shrinks merging.old merging.new }
    ensures refused { OnErr result (result ≡ Err PresFault.Memory) }
{
    for _turn in 0..merging.size() {
        let Some((u, v)) = merging.take_pair() else {
            return Ok(());
        };
        join_beside(merging, u, v)?;
    }
    Ok(())
}

/// Lets each vector point to the first of its class.
fn flatten<A: Allocator>(merging: &mut Merging<'_, A>)
    ensures kept { Shrinks merging.old merging.new }
    ensures firsts { AreFirsts merging.old.axes merging.new.parents }
{
    for i in 0..merging.size() {
        merging.is_box();
        let parent = merging.parent(i);
        let above = merging.parent(parent);
        merging.point(i, above);
    }
}

/// Joins what the relations say.
fn join_relations<A: Allocator>(merging: &mut Merging<'_, A>) -> Result<(), PresFault>
    ensures kept { Shrinks merging.old merging.new }
    ensures refused { OnErr result (result ≡ Err PresFault.Memory) }
{
    for i in 0..merging.relations() {
        let (u, v) = merging.places(i);
        join(merging, u, v)?;
    }
    Ok(())
}

/// The firsts of two classes that a relation makes one.
fn relation_gap<A: Allocator>(merging: &Merging<'_, A>) -> Option<(usize, usize)>
    requires { AreFirsts merging.now.axes merging.now.parents }
    ensures gap { IfSome result
        (λ p. IsGap merging.now.axes merging.now.relations merging.now.parents p.0 p.1) }
    ensures none { IfNone result
        (RelationsHold merging.now.axes merging.now.relations merging.now.parents) }
{
    for i in 0..merging.relations() {
        let (left, right) = merging.places(i);
        let x = merging.parent(left);
        let y = merging.parent(right);
        if x != y {
            return Some((x, y));
        }
    }
    None
}

/// The firsts of two classes that one letter more beside a vector and the first of its class makes
/// one.
fn step_gap<A: Allocator>(merging: &Merging<'_, A>) -> Option<(usize, usize)>
    requires { AreFirsts merging.now.axes merging.now.parents }
    ensures gap { IfSome result
        (λ p. IsGap merging.now.axes merging.now.relations merging.now.parents p.0 p.1) }
    ensures none { IfNone result (StepsHold merging.now.axes merging.now.parents) }
{
    for at in 0..merging.size() {
        if let Some(pair) = gap_at(merging, at) {
            return Some(pair);
        }
    }
    None
}

/// Such firsts beside one vector.
fn gap_at<A: Allocator>(merging: &Merging<'_, A>, at: usize) -> Option<(usize, usize)>
    requires firsts { AreFirsts merging.now.axes merging.now.parents }
    requires at_in { at < size_of merging.now.axes }
    ensures gap { IfSome result
        (λ p. IsGap merging.now.axes merging.now.relations merging.now.parents p.0 p.1) }
    ensures none { IfNone result (StepsHoldAt merging.now.axes merging.now.parents at) }
{
    merging.is_box();
    let first = merging.parent(at);
    for i in 0..merging.letters() {
        let u = merging.next(i, at);
        let v = merging.next(i, first);
        let x = merging.parent(u);
        let y = merging.parent(v);
        if x != y {
            return Some((x, y));
        }
    }
    None
}

/// Two firsts that the least congruence relates.
fn gap<A: Allocator>(merging: &Merging<'_, A>) -> Option<(usize, usize)>
    requires { AreFirsts merging.now.axes merging.now.parents }
    ensures gap { IfSome result
        (λ p. IsGap merging.now.axes merging.now.relations merging.now.parents p.0 p.1) }
    ensures none { IfNone result
        (AreClosed merging.now.axes merging.now.relations merging.now.parents) }
{
    match relation_gap(merging) {
        Some(pair) => Some(pair),
        None => step_gap(merging),
    }
}

/// Joins until the classes are those of a congruence that holds the relations.
fn close<A: Allocator>(merging: &mut Merging<'_, A>) -> Result<(), PresFault>
    ensures kept { Shrinks merging.old merging.new }
    ensures firsts { IfOk result (λ _. AreFirsts merging.new.axes merging.new.parents) }
    ensures closed { IfOk result
        (λ _. AreClosed merging.new.axes merging.new.relations merging.new.parents) }
    ensures refused { OnErr result (result ≡ Err PresFault.Memory) }
{
    join_relations(merging)?;
    spread(merging)?;
    flatten(merging);
    while let Some((x, y)) = gap(merging) {
        link(merging, x, y)?;
        spread(merging)?;
        flatten(merging);
    }
    Ok(())
}

/// The numbers below the size.
fn numbers_below<A: Allocator>(alloc: A, size: usize) -> Result<Vec<u32, A>, PresFault>
    requires { size < 2 ^ 32 }
    ensures length_is { IfOk result (λ v. length v.items ≡ size) }
    ensures numbers { IfOk result (λ v. (i : ℕ) → i < size → slice_index v.items i ≡ i) }
    ensures refused { OnErr result (result ≡ Err PresFault.Memory) }
{
    let mut numbers = Vec::new(alloc);
    for i in 0..size {
        numbers.push(i as u32)?;
    }
    Ok(numbers)
}

/// The first vector of each vector's class.
pub fn classes_of<A: Allocator + Copy>(
    alloc: A,
    axes: &[Axis],
    relations: &[Relation],
    size: usize,
) -> Result<Vec<u32, A>, PresFault>
    requires is_box { IsBox axes.now relations.now }
    requires size { size ≡ size_of axes.now }
    ensures classes { IfOk result (λ v. AreClasses axes.now relations.now v.items) }
    ensures roots { IfOk result (λ v. AreRoots axes.now v.items) }
    ensures refused { OnErr result (result ≡ Err PresFault.Memory) }
{
    let parents = numbers_below(alloc, size)?;
    let mut merging = Merging::new(axes, relations, parents, Vec::new(alloc));
    close(&mut merging)?;
    Ok(merging.into_parents())
}
