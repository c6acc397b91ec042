//! The search for whole games in which one heap may rule all others.
//!
//! Nothing is believed of the search: what it hands out was accepted by the check of its bytes.
//!
//! # The method
//!
//! Suppose that a claim of this kind is right of a game, that the largest lead of the heaps 1 to M is
//! L, and that some heaps have the triples (1, 0, 0) and (0 or 1, 1, 0). Then in the quotient of these
//! heaps the triple of each heap can be read.
//!
//! 1. Positions of weight L or more that no heap rules are told apart by the two parities alone. They
//!    make the least ideal, a group of four elements, and of these the identity alone is P. So each
//!    element has a product with that identity, and by it the parities.
//! 2. Which of the four is which is seen by the elements that are P: the one that is its own inverse
//!    turns the parity of a position and nothing else; those with a ruling heap have an odd weight.
//! 3. Beside more and more heaps of weight 1 a lead is lost one by one. While it lasts, an even position
//!    is P exactly if its weight is odd. So the lead of an element is the number of these heaps by which
//!    it is lost.
//! 4. Beside the heap with the lead L a weight of w takes w off the lead. So a weight up to L is seen.
//!
//! The triples of all heaps whose weights are seen are compared for the least period, and a claim is
//! made of them once as many heaps again show it.
#![tactic(auto)]

mod drafting;
mod finding;
mod ideal;
mod labels;
mod reading;

pub use finding::find_whole;
