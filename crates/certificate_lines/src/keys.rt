//! The line of the keys, keys of first elements, and keys that fall.
ghost use Rattle.std.specs.Prelude.{◌≡◌, ◌≤◌, ◌<◌, ◌+◌, ◌-◌, ◌^◌, codes, length};
ghost use Rattle.compact_certificates.specs.Rows.{firsts_of, keys_fall};
ghost use Rattle.certificate_lines.specs.Given.{Gives};
ghost use Rattle.certificate_text.specs.Reading.{key_at, words_at, line_at};

use crate::fault::TextFault;
use crate::key::Key;
use crate::reader::Reader;
use crate::stop::Wanted;
use std::alloc::Allocator;

/// An element below the order and a heap from 1 up to below `heaps`, with a colon between them.
#[tactic(auto, unfolding(certificate_text::specs::Reading::key_at))]
fn key(reader: &mut Reader<'_>, order: u16, heaps: u16) -> Result<Key, TextFault>
    requires low { 0 < order }
    requires some { 0 < heaps }
    ensures { Gives (λ x. (x, reader.new)) result (key_at order heaps reader.old) }
{
    let element = reader.number(order)?;
    reader.fixed(b":")?;
    let left = reader.left();
    let heap = reader.number(heaps)?;
    if 0 < heap {
        Ok(Key { element, heap })
    } else {
        let wanted = Wanted::Number {
            least: 1,
            limit: heaps,
        };
        reader.wants(left, wanted);
        Err(TextFault::Text)
    }
}

/// Keys, each behind a space.
fn keys<A: Allocator>(
    alloc: A,
    reader: &mut Reader<'_>,
    count: u16,
    order: u16,
    heaps: u16,
) -> Result<Vec<Key, A>, TextFault>
    requires low { 0 < order }
    requires some { 0 < heaps }
    ensures { Gives (λ x. (x.items, reader.new)) result
        (words_at (key_at order heaps) count reader.old) }
{
    let mut found = Vec::new(alloc);
    for _ in 0..count {
        reader.space()?;
        let x = key(reader, order, heaps)?;
        found.push(x)?;
    }
    Ok(found)
}

/// The line of the keys of the elements from 1 on.
#[tactic(auto, unfolding(certificate_text::specs::Reading::line_at))]
pub fn key_line<A: Allocator>(
    alloc: A,
    reader: &mut Reader<'_>,
    order: u16,
    heaps: u16,
) -> Result<Vec<Key, A>, TextFault>
    requires low { 0 < order }
    requires some { 0 < heaps }
    ensures { Gives (λ x. (x.items, reader.new)) result
        (line_at (codes "words") (key_at order heaps) (order - 1) reader.old) }
{
    reader.fixed(b"words")?;
    let found = keys(alloc, reader, order - 1, order, heaps)?;
    reader.fixed(b"\n")?;
    Ok(found)
}

/// How many keys have the element 0 before the first that has another.
pub fn firsts(words: &[Key]) -> usize
    ensures value { result ≡ firsts_of words.now }
    ensures within { result ≤ length words.now }
{
    for i in 0..words.len() {
        let key = words[i];
        if key.element != 0 {
            return i;
        }
    }
    words.len()
}

/// Whether each key has an element below its own, which for the first is `element`.
pub fn keys_fall(keys: &[Key], element: usize) -> bool
    requires { element + length keys.now < 2 ^ 64 }
    ensures { result ≡ keys_fall element keys.now }
{
    for i in 0..keys.len() {
        let key = keys[i];
        if key.element as usize >= element + i {
            return false;
        }
    }
    true
}
