//! A search for few labels that tell all classes apart, of which nothing is promised. First come those beside which
//! about half of the classes are in the portion.
use crate::LabelTables;
use crate::marks::mark;
use allocation::Memory;
use std::alloc::Allocator;

/// Whether the mark is seen to be true.
fn is_marked<A: Allocator>(t: &LabelTables<A>, marks: &[bool], w: usize, x: usize) -> bool {
    mark(t, marks, w, x) == Some(true)
}

/// The number, or the largest there is.
fn small(x: usize) -> u32 {
    x.min(u32::MAX as usize) as u32
}

/// How far the count of classes in the portion beside label `w` is from half of all.
fn imbalance<A: Allocator>(t: &LabelTables<A>, marks: &[bool], w: usize) -> u32 {
    let mut count = 0usize;
    for x in 0..t.classes {
        if is_marked(t, marks, w, x) {
            count = count.saturating_add(1);
        }
    }
    small(count.saturating_mul(2).abs_diff(t.classes))
}

/// The labels, the most balanced ones first: the imbalance, and in the lower half the label.
fn by_balance<A: Allocator>(
    alloc: A,
    t: &LabelTables<A>,
    marks: &[bool],
) -> Result<Vec<u64, A>, Memory> {
    let mut all = Vec::new(alloc);
    for w in 0..t.labels {
        all.push((imbalance(t, marks, w) as u64) << 32 | small(w) as u64)?;
    }
    all.sort_unstable();
    Ok(all)
}

/// So many zeros.
fn zeros<A: Allocator>(alloc: A, length: usize) -> Result<Vec<u32, A>, Memory> {
    let mut all = Vec::new(alloc);
    for _ in 0..length {
        all.push(0)?;
    }
    Ok(all)
}

/// Splits each group of classes by the marks beside label `w`, and says how many groups there are.
fn split<A: Allocator + Copy>(
    alloc: A,
    t: &LabelTables<A>,
    marks: &[bool],
    w: usize,
    groups: &mut [u32],
) -> Result<u32, Memory> {
    let mut names = zeros(alloc, groups.len().saturating_mul(2).saturating_add(2))?;
    let mut count = 0u32;
    for x in 0..groups.len() {
        let half = (groups[x] as usize).saturating_mul(2);
        let key = half.saturating_add(is_marked(t, marks, w, x) as usize);
        if key < names.len() {
            if names[key] == 0 {
                count = count.saturating_add(1);
                names[key] = count;
            }
            groups[x] = names[key];
        }
    }
    Ok(count)
}

/// Labels that split all classes, each of them some group that the ones before leave whole.
pub(crate) fn contexts_of<A: Allocator + Copy>(
    alloc: A,
    t: &LabelTables<A>,
    marks: &[bool],
) -> Result<Vec<u32, A>, Memory> {
    let mut contexts = Vec::new(alloc);
    let mut groups = zeros(alloc, t.classes)?;
    let mut count = 1u32;
    for key in by_balance(alloc, t, marks)?.iter() {
        if count as usize >= t.classes {
            break;
        }
        let w = *key & 0xFFFF_FFFF;
        let next = split(alloc, t, marks, w as usize, &mut groups)?;
        if count < next {
            contexts.push(w as u32)?;
        }
        count = next;
    }
    Ok(contexts)
}
