//! What tells values apart: contexts, and a tree of them.
use crate::values::{Value, ValueTable};
use quotient_search::{Halt, Work};
use running_pairs::{NONE, at, put};
use std::alloc::Allocator;

/// Contexts: those that told values apart, and all.
#[derive(Drop)]
pub struct Contexts<'a, A: Allocator> {
    pub values: &'a ValueTable<A>,
    pub known: Vec<Value, A>,
    pub all: Vec<Value, A>,
}

impl<A: Allocator> Contexts<'_, A> {
    /// The number of a context.
    #[inline]
    fn known_at(&self, number: usize) -> Value {
        match self.known.get(number) {
            Some(context) => *context,
            None => Value::ONE,
        }
    }

    /// Whether a context tells two values apart.
    #[inline]
    fn is_telling(&self, context: Value, one: Value, other: Value) -> bool {
        self.values.is_p_beside(one, context) != self.values.is_p_beside(other, context)
    }

    /// The last of the contexts known that tells two values apart.
    fn known_telling(&self, one: Value, other: Value) -> Option<usize> {
        for before in 0..self.known.len() {
            let number = self.known.len().wrapping_sub(before).wrapping_sub(1);
            if self.is_telling(self.known_at(number), one, other) {
                return Some(number);
            }
        }
        None
    }

    /// The first of all contexts that tells two values apart.
    fn first_telling(&self, one: Value, other: Value) -> Option<Value> {
        for context in self.all.iter() {
            if self.is_telling(*context, one, other) {
                return Some(*context);
            }
        }
        None
    }

    /// The number of a context that tells two values apart, if there is one. It is known then.
    fn telling(
        &mut self,
        one: Value,
        other: Value,
        work: &mut Work,
    ) -> Result<Option<usize>, Halt> {
        if one == other {
            return Ok(None);
        }
        work.spend(self.known.len().saturating_mul(32))?;
        if let Some(number) = self.known_telling(one, other) {
            return Ok(Some(number));
        }
        work.spend(self.all.len().saturating_mul(32))?;
        let Some(context) = self.first_telling(one, other) else {
            return Ok(None);
        };
        self.known.push(context)?;
        Ok(Some(self.known.len().saturating_sub(1)))
    }
}

/// A tree of contexts. A node has a context and two nodes below it, for values that are P beside the context and for
/// those that aren't; or it has no context, and an item.
#[derive(Drop)]
pub struct Tree<A: Allocator> {
    contexts: Vec<usize, A>,
    /// The node below for values that aren't P there, or the item.
    below: Vec<usize, A>,
}

/// Where a value came to: an item that it is alike, or a node whose item is told apart from it by a context.
#[derive(Clone, Copy)]
pub enum Met {
    Item(usize),
    Apart { node: usize, context: usize },
}

impl<A: Allocator + Copy> Tree<A> {
    /// A tree of one item, with the number 0.
    pub fn new(alloc: A) -> Result<Tree<A>, Halt> {
        Ok(Tree {
            contexts: Vec::from_slice(alloc, &[NONE])?,
            below: Vec::from_slice(alloc, &[0usize])?,
        })
    }
}

impl<A: Allocator> Tree<A> {
    /// The node without a context to which a value comes.
    fn leaf(&self, contexts: &Contexts<'_, A>, value: Value) -> usize {
        let mut node = 0usize;
        for _ in 0..self.contexts.len() {
            let context = at(&self.contexts, node);
            if context == NONE {
                break;
            }
            let is_p = contexts
                .values
                .is_p_beside(value, contexts.known_at(context));
            node = at(&self.below, node).wrapping_add(usize::from(is_p));
        }
        node
    }

    /// Where a value comes to, among items that have these values.
    pub fn meet(
        &self,
        contexts: &mut Contexts<'_, A>,
        items: &[Value],
        value: Value,
        work: &mut Work,
    ) -> Result<Met, Halt> {
        work.spend(1000)?;
        let node = self.leaf(contexts, value);
        let item = at(&self.below, node);
        let other = items.get(item).copied().unwrap_or(Value::ONE);
        match contexts.telling(value, other, work)? {
            Some(context) => Ok(Met::Apart { node, context }),
            None => Ok(Met::Item(item)),
        }
    }

    /// Puts in an item with the value, which a context tells apart from that of the node.
    pub fn grow(
        &mut self,
        contexts: &Contexts<'_, A>,
        node: usize,
        context: usize,
        item: usize,
        value: Value,
    ) -> Result<(), Halt> {
        let other = at(&self.below, node);
        let is_p = contexts
            .values
            .is_p_beside(value, contexts.known_at(context));
        let (low, high) = if is_p { (other, item) } else { (item, other) };
        let first = self.contexts.len();
        self.contexts.push(NONE)?;
        self.contexts.push(NONE)?;
        self.below.push(low)?;
        self.below.push(high)?;
        put(&mut self.contexts, node, context);
        put(&mut self.below, node, first);
        Ok(())
    }
}
