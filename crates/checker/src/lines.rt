//! The lines of a certificate that no other stage takes over.
ghost use Rattle.std.specs.Prelude.{◌≡◌, ◌==◌, ◌*◌, ◌<◌, ℕ, All};
ghost use Rattle.std.specs.List.{list_any};
ghost use Rattle.std.specs.FinSet as set;

use certificate::Key;
use element_sets::LaneSet;
use std::alloc::{Allocator, Global};

/// The portion, the keys, and the separating elements.
#[derive(Drop)]
pub struct Lines<A: Allocator = Global> {
    pub portion: Vec<u16, A>,
    pub words: Vec<Key, A>,
    pub apart: Vec<u16, A>,
}

/// The set of the elements of a list.
pub fn set_of<const LANES: usize>(elements: &[u16]) -> LaneSet<LANES>
    requires { All (λ x. x < 64 * LANES) elements.now }
    ensures { (x : ℕ) → set.contains result x ≡ list_any (λ y. y == x) elements.now }
{
    let mut all = LaneSet::new();
    for x in elements {
        all.insert(*x);
    }
    all
}
