//! LabelTables of labels, and positions that are found.
use std::alloc::{Allocator, Global};
use std::marker::Model;

/// What labels and heaps do, in numbers. Label 0 is that of nothing. `images` has a row for each label and an
/// entry for each class, `bad` a row for each image and a mark for each heap that is bad beside it, and `next` a
/// row for each label and the label with each heap more. `start` is the class of label 0.
#[derive(Drop)]
pub struct LabelTables<A: Allocator = Global> {
    pub heaps: usize,
    pub labels: usize,
    pub classes: usize,
    pub start: usize,
    pub images: Vec<u32, A>,
    pub bad: Vec<bool, A>,
    pub next: Vec<u32, A>,
    pub weights: Vec<u64, A>,
}

impl<A: Allocator> Model for LabelTables<A> {
    ghost use Rattle.kept_positions.specs.Numbers as numbers;

    ghost Value = { numbers.LabelTables };

    ghost view = { λ t. record {
      heaps = t.heaps;
      labels = t.labels;
      classes = t.classes;
      start = t.start;
      images = t.images.items;
      bad = t.bad.items;
      next = t.next.items;
      weights = t.weights.items;
    } };
}

/// Where the labels of a class go with a heap more, by classes: a row for each heap, and for each class the numbers
/// from `first` on up to that of the next one, in `onto`. Labels of one class may go to several.
#[derive(Drop)]
pub struct ClassTurns<A: Allocator = Global> {
    pub first: Vec<u32, A>,
    pub onto: Vec<u32, A>,
}

impl<A: Allocator> Model for ClassTurns<A> {
    ghost use Rattle.kept_positions.specs.Numbers as numbers;

    ghost Value = { numbers.ClassTurns };

    ghost view = { λ u. record { first = u.first.items; onto = u.onto.items } };
}

/// Positions that are found: of each its label and its weight; its entries, each a heap and the label of the
/// others, from number `first[i]` on up to that of the next position; the position of which it is made; the position
/// to which one heap more leads, or `count` if it is covered; and a mark for each heap that is free at it, of which the
/// position stands for all with any more of them.
#[derive(Drop)]
pub struct KeptPositions<A: Allocator = Global> {
    pub count: usize,
    pub labels: Vec<u32, A>,
    pub weights: Vec<u64, A>,
    pub first: Vec<u32, A>,
    pub heaps: Vec<u32, A>,
    pub others: Vec<u32, A>,
    pub parents: Vec<u32, A>,
    pub onward: Vec<u32, A>,
    pub free: Vec<bool, A>,
}

impl<A: Allocator> Model for KeptPositions<A> {
    ghost use Rattle.kept_positions.specs.Numbers as numbers;

    ghost Value = { numbers.KeptPositions };

    ghost view = { λ k. record {
      count = k.count;
      labels = k.labels.items;
      weights = k.weights.items;
      first = k.first.items;
      heaps = k.heaps.items;
      others = k.others.items;
      parents = k.parents.items;
      onward = k.onward.items;
      free = k.free.items;
    } };
}
