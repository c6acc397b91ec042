//! What a search has come to.
use crate::dead_contexts::DeadContexts;
use crate::failing::Failing;
use crate::quotient::HeapQuotient;
use std::alloc::Allocator;

/// A quotient on the way, the dead contexts that show whether it is right, and the lightest position at
/// which the rule was found to fail.
#[derive(Drop)]
pub struct State<A: Allocator> {
    pub quotient: HeapQuotient<A>,
    pub dead_contexts: DeadContexts<A>,
    pub failing: Failing<A>,
}

impl<A: Allocator + Copy> State<A> {
    /// Nothing yet, and no memory.
    pub fn empty(alloc: A) -> State<A> {
        State {
            quotient: HeapQuotient::empty(alloc),
            dead_contexts: DeadContexts::empty(alloc),
            failing: Failing {
                weight: 0,
                heaps: Vec::new(alloc),
            },
        }
    }
}

impl<A: Allocator> State<A> {
    /// The quotient alone.
    pub fn into_quotient(self) -> HeapQuotient<A> {
        let State { quotient, .. } = self;
        quotient
    }
}
