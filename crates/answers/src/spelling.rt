//! The position that an element's keys spell.
ghost use Rattle.std.specs.Prelude.{◌≡◌, ◌≤◌, IfOk, IsOk, ℕ, List, length};
ghost use Rattle.misere_theory.specs.Certificates.{Certificate, IsSpelled};
ghost use Rattle.answers.specs.Spelled.{AreSpelled, GoDown};

use allocation::{Memory, SmallAllocator};
use certificate::Key;
use positions::{INLINE, Position};

/// The position that the keys of an element spell: the heap of its key, that of this key's element,
/// and so on. Up to `INLINE` heaps take no memory.
pub fn position_of<A: SmallAllocator + Copy>(
    alloc: A,
    words: &[Key],
    element: u16,
) -> Result<Position<A>, Memory>
    requires down { GoDown words.now }
    requires element_in { element ≤ length words.now }
    ensures spelled { IfOk result
        (λ X. (c : Certificate) → c.words ≡ words.now → AreSpelled c element X) }
    ensures inline { (c : Certificate) → c.words ≡ words.now → (X : List ℕ)
        → IsSpelled c element X → length X ≤ INLINE → IsOk result }
{
    let mut position = Position::new(alloc);
    let mut reached = element;
    while reached > 0 {
        let key = words[reached as usize - 1];
        position.push(key.heap as u64)?;
        reached = key.element;
    }
    // they stand rising
    let _ = position.heaps();
    Ok(position)
}
