//! A box's vectors and pointers between them: each vector points to a related one that doesn't come
//! after it.
ghost use Rattle.std.specs.Prelude.{◌≡◌, ◌<◌, ◌≤◌, ◌∷◌, ◌++◌, [], IfOk, IfSome, IfNone, OnErr, Err, length, slice_index, slice_index_or};
ghost use Rattle.presentations.specs.declared.read.Relation.{Relation};
ghost use Rattle.presentations.specs.Boxes.{size_of, next_of, place_of};
ghost use Rattle.presentations.specs.Words.{vector_on};
ghost use Rattle.presentations.specs.Merging.{AreRelated, IsBox, IsMerging, IsPointed, letters_in};

use crate::axes::{Axis, next, place};
use crate::fault::PresFault;
use crate::read::Relation;
use std::alloc::Allocator;
use std::marker::Model;

/// Pointers, and the pairs that were joined and not yet looked at beside each letter.
#[derive(Drop)]
pub struct Merging<'a, A: Allocator> {
    axes: &'a [Axis],
    relations: &'a [Relation],
    parents: Vec<u32, A>,
    pending: Vec<(u32, u32), A>,
}

impl<'a, A: Allocator> Model for Merging<'a, A> {
    ghost use Rattle.presentations.specs.Merging.{MergeState, IsMerging};

    ghost Value = { MergeState };

    ghost view = { λ m.
        record {
          axes = m.axes.now;
          relations = m.relations.now;
          parents = m.parents.items;
          pending = m.pending.items;
        } };

    ghost invariant = { λ m. IsMerging m.axes.now m.relations.now m.parents.items m.pending.items };
}

impl<'a, A: Allocator> Merging<'a, A> {
    /// Each vector by itself.
    pub fn new(
        axes: &'a [Axis],
        relations: &'a [Relation],
        parents: Vec<u32, A>,
        pending: Vec<(u32, u32), A>,
    ) -> Merging<'a, A>
        requires { IsMerging axes.now relations.now parents.items pending.items }
        ensures axes { result.axes ≡ axes.entry.now }
        ensures relations { result.relations ≡ relations.entry.now }
        ensures parents { result.parents ≡ parents.items }
        ensures pending { result.pending ≡ pending.items }
    {
        Merging {
            axes,
            relations,
            parents,
            pending,
        }
    }

    /// How many vectors the box has.
    pub fn size(&self) -> usize
        ensures { result ≡ size_of self.now.axes }
    {
        self.parents.len()
    }

    /// How many letters there are.
    pub fn letters(&self) -> usize
        ensures { result ≡ length self.now.axes }
    {
        self.axes.len()
    }

    /// How many relations there are.
    pub fn relations(&self) -> usize
        ensures { result ≡ length self.now.relations }
    {
        self.relations.len()
    }

    /// What the vector points to.
    pub fn parent(&self, at: usize) -> usize
        requires { at < size_of self.now.axes }
        ensures value { result ≡ slice_index self.now.parents at }
        ensures down { result ≤ at }
        ensures related { AreRelated self.now.axes self.now.relations at result }
    {
        self.parents[at] as usize
    }

    /// Lets the vector point to a related one before it.
    pub fn point(&mut self, at: usize, to: usize)
        requires at_in { at < size_of self.old.axes }
        requires down { to ≤ at }
        requires related { AreRelated self.old.axes self.old.relations at to }
        ensures { IsPointed self.old self.new at to }
    {
        let parents = &mut self.parents;
        parents[at] = to as u32;
    }

    /// Keeps a joined pair for later.
    pub fn wait(&mut self, u: usize, v: usize) -> Result<(), PresFault>
        requires u_in { u < size_of self.old.axes }
        requires v_in { v < size_of self.old.axes }
        requires related { AreRelated self.old.axes self.old.relations u v }
        ensures axes { self.new.axes ≡ self.old.axes }
        ensures relations { self.new.relations ≡ self.old.relations }
        ensures parents { self.new.parents ≡ self.old.parents }
        ensures kept { IfOk result (λ _. self.new.pending ≡ self.old.pending ++ (u, v) ∷ []) }
        ensures refused { OnErr result (result ≡ Err PresFault.Memory) }
    {
        self.pending.push((u as u32, v as u32))?;
        Ok(())
    }

    /// A joined pair that was kept for later.
    pub fn take_pair(&mut self) -> Option<(usize, usize)>
        ensures axes { self.new.axes ≡ self.old.axes }
        ensures relations { self.new.relations ≡ self.old.relations }
        ensures parents { self.new.parents ≡ self.old.parents }
        ensures last { IfSome result (λ p. self.old.pending ≡ self.new.pending ++ p ∷ []) }
        ensures none { IfNone result (self.old.pending ≡ []) }
        ensures pair { IfSome result (λ p. (p.0 < size_of self.old.axes)
            × (p.1 < size_of self.old.axes) × AreRelated self.old.axes self.old.relations p.0 p.1) }
    {
        let (u, v) = self.pending.pop()?;
        Some((u as usize, v as usize))
    }

    /// The place with letter `i` once more.
    pub fn next(&self, i: usize, at: usize) -> usize
        requires i_in { i < length self.now.axes }
        requires at_in { at < size_of self.now.axes }
        ensures value { result ≡ next_of self.now.axes i at }
        ensures within { result < size_of self.now.axes }
    {
        next(self.axes, i, at)
    }

    /// The places of both words of relation `i`.
    pub fn places(&self, i: usize) -> (usize, usize)
        requires { i < length self.now.relations }
        ensures left { (d : Relation)
            → result.0
            ≡ place_of self.now.axes
            (vector_on (letters_in self.now.axes) (slice_index_or self.now.relations i d).left) }
        ensures right { (d : Relation)
            → result.1
            ≡ place_of self.now.axes
            (vector_on (letters_in self.now.axes) (slice_index_or self.now.relations i d).right) }
        ensures left_in { result.0 < size_of self.now.axes }
        ensures right_in { result.1 < size_of self.now.axes }
        ensures related { AreRelated self.now.axes self.now.relations result.0 result.1 }
    {
        let relations = self.relations;
        let relation = &relations[i];
        (
            place(self.axes, &relation.left),
            place(self.axes, &relation.right),
        )
    }

    /// The axes are a box's, and the pointers lead to related vectors that don't come after.
    pub fn is_box(&self)
        ensures is_box { IsBox self.now.axes self.now.relations }
        ensures merging { IsMerging self.now.axes self.now.relations self.now.parents
            self.now.pending }
    {
        let _ = &self.parents;
    }

    /// The pointers.
    pub fn into_parents(self) -> Vec<u32, A>
        ensures value { result.items ≡ self.entry.parents }
        ensures merging { IsMerging self.entry.axes self.entry.relations result.items
            self.entry.pending }
    {
        let Merging { parents, .. } = self;
        parents
    }
}
