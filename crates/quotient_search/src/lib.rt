//! A search for the misère quotients of octal and hexadecimal games, heap by heap.
//!
//! Nothing is promised of a quotient that is found: it may be wrong. What is proved is that the search is
//! safe, ends, and tells want of memory. A certificate that is made of it is checked by others.
//!
//! # The method
//!
//! The search holds a *quotient on the way*: a finite commutative monoid in which each of the heaps 1 to
//! n - 1 has an element, and each element is known by its *lightest representative*, the position of
//! least weight that has it (a heap h weighs 2h - 1). Of the representatives only the weights and the
//! elements of their options are kept. One heap more, n, is added like this.
//!
//! 1. Its options have elements already, since their heaps are smaller: these are its *moves*. A *rest*
//!    is what a move leaves of a heap, and the elements of all sums of two and of three heaps that make
//!    up a rest are kept from heap to heap.
//! 2. If the moves are those of an earlier heap, a *twin*, then heap n has that one's element.
//! 3. *Level* k says of every element y whether k heaps n beside y's representative are P. It follows
//!    from level k - 1 and from itself: the position is P if no move of a heap n and no option of the
//!    representative leads to a P. Elements are taken by their weights, so options come first. No
//!    position is searched.
//! 4. If level 1 is what multiplication by some element x does, then x is the element of heap n. Else
//!    levels are added until they come round. The pairs of a level and an element are then a finite
//!    monoid, and its coarsest congruence that keeps P and N is the next quotient.
//!
//! # Is it right?
//!
//! Merging may have gone too far. A *dead context* of a position is an element beside which the position
//! and all its options are N, so that the rule of misère play fails there. The dead contexts of a sum
//! come from those of its summands. So a closure over the heaps, which keeps for each element only the
//! largest sets, sees whether the rule fails anywhere.
//!
//! Where it does, the lightest position at which it fails is found, and the quotient is made once more
//! from heap 1 on *beside contexts*: for each element a row of bits says beside which contexts it is P,
//! and not only whether it is P alone. The contexts are the elements of the wrong guess and the summands
//! of the failing position; together they are a *scene*. That is a *repair*. A repair is taken if the
//! rule fails at a heavier position than before, or nowhere.
//!
//! # The modules, in the order of the search
//!
//! | Module | What it does |
//! |---|---|
//! | `aim`, `work` | what is looked for, what a search comes to, and how much work it may spend |
//! | `search`, `state` | from heap to heap, until the period shows or the part is whole |
//! | `quotient`, `lists`, `twins` | the quotient on the way, and heaps that do the same |
//! | `rests` | the elements of what moves leave |
//! | `extend`, `levels` | one heap more, by levels |
//! | `collapse`, `congruence`, `partition` | the coarsest congruence of the pairs, and the quotient by it |
//! | `lightest` | lightest representatives, once more, after a lighter heap came |
//! | `dead`, `dead_contexts`, `sets`, `chains` | dead contexts, and the closure over them |
//! | `failing`, `inside` | the lightest position at which the rule fails |
//! | `scene`, `contexts`, `repair` | contexts, and the quotient made once more beside them |
//! | `wrong` | the wrong guesses of a search, one after another, for whoever learns from them |
//! | `cells` | places in tables: outside a table 0 is read, and nothing is written |
//!
//! An index outside a table would be a fault of the search. It gives a wrong guess then, which the check
//! refuses, and no panic: that is why `cells` has no error.
//!
//! The least periods of lists of elements are found by proved code (`periods`).
#![tactic(auto)]

mod aim;
mod cells;
mod chains;
mod collapse;
mod congruence;
mod contexts;
mod dead;
mod dead_contexts;
mod evidence;
mod extend;
mod failing;
mod inside;
mod levels;
mod lightest;
mod lists;
mod partition;
mod periods;
mod quotient;
mod repair;
mod rests;
mod scene;
mod search;
mod sets;
mod state;
mod twins;
mod work;
mod wrong;

pub use aim::{DEEPEST, Extent, Found, LONGEST_PART, Reason};
pub use evidence::{is_shown, soonest_period};
pub use partition::Partition;
pub use periods::{least_period, repeats_from};
pub use quotient::HeapQuotient;
pub use search::search_quotient;
pub use work::{Halt, Work};
pub use wrong::Guesses;
