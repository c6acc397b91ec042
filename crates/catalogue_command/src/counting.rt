//! How many elements heaps have.
ghost use Rattle.std.specs.Prelude.{◌≡◌, ◌≤◌, length};
ghost use Rattle.compact_certificates.specs.Rows.{firsts_of};
ghost use Rattle.catalogue_command.specs.Tables.{HasHeapElements};

use certificate::Key;
use checker::Certified;
use compact_certificates::accepted_certificates_follow;

/// How many keys have the element 0 before the first that has another.
fn first_keys(words: &[Key]) -> usize
    ensures value { result ≡ firsts_of words.now }
    ensures within { result ≤ length words.now }
{
    for i in 0..words.len() {
        let key = words[i];
        if key.element != 0 {
            return i;
        }
    }
    words.len()
}

/// How many elements other than the identity are those of heaps.
pub(crate) fn heap_elements(certified: &Certified) -> usize
    ensures { HasHeapElements certified.now result }
{
    accepted_certificates_follow();
    first_keys(certified.cert().words())
}
