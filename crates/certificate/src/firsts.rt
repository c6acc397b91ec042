//! Whether all rows can be made of those of the first elements.
ghost use Rattle.std.specs.Prelude.{◌≡◌, nat_le};
ghost use Rattle.std.specs.List.{list_all};
ghost use Rattle.compact_certificates.specs.Compact.{is_expandable};

use crate::lists::Lists;
use certificate_lines::{firsts, keys_fall};
use std::alloc::Allocator;

/// Whether these elements are 0 or first ones.
fn are_first(elements: &[u16], firsts: usize) -> bool
    ensures { result ≡ list_all (λ x. nat_le x firsts) elements.now }
{
    elements.iter().all(|x| *x as usize <= firsts)
}

/// Whether all rows can be made of those of the first elements.
pub fn is_expandable<A: Allocator>(lists: &Lists<A>) -> bool
    ensures { result ≡ is_expandable lists.now }
{
    let firsts = firsts(&lists.words);
    are_first(&lists.entries, firsts) && keys_fall(&lists.words[firsts..], firsts + 1)
}
