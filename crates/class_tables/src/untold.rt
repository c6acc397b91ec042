//! A search for the pairs of classes that no label tells apart, and for labels that lower them. Nothing is promised of
//! either.
ghost use Rattle.std.specs.Prelude.{IfErr};
ghost use Rattle.presented_tables.specs.Faults.{IsTrueOf};

use crate::marks::ClassMarks;
use crate::separating::{is_alone, lowers, lowers_class};
use crate::tables::ClassTables;
use allocation::Memory;
use presented_tables::{Presented, TablesFault};
use std::alloc::{Allocator, Global};

/// The most pairs that are listed.
const MOST_PAIRS: usize = 1 << 20;

/// The most looks at pairs beside labels that are taken, times relations.
const MOST_LOOKS: usize = 1 << 32;

/// The marks of classes, and the pairs of them that may not be told apart.
#[derive(Drop)]
pub struct UntoldPairs<A: Allocator = Global> {
    marks: ClassMarks<A>,
    pairs: Vec<(u32, u32), A>,
}

/// A number for a row of lanes: the same for the same rows, and mostly another one for others.
fn signature(row: &[u64]) -> u64 {
    let mut sum: u64 = 0;
    for lane in row {
        sum = (sum ^ *lane)
            .wrapping_mul(0x9e37_79b9_7f4a_7c15)
            .rotate_left(29);
    }
    sum
}

/// The classes by their signatures.
fn by_signature<A: Allocator + Copy>(
    alloc: A,
    marks: &ClassMarks<A>,
    classes: usize,
) -> Result<Vec<(u64, u32), A>, Memory> {
    let mut all = Vec::new(alloc);
    for x in 0..classes {
        all.push((signature(marks.row(x)), x.min(u32::MAX as usize) as u32))?;
    }
    all.sort_unstable();
    Ok(all)
}

/// Adds class `k` of the list with those before it that have its signature.
fn add_pairs<A: Allocator>(
    pairs: &mut Vec<(u32, u32), A>,
    sorted: &[(u64, u32)],
    k: usize,
) -> Result<(), Memory> {
    let Some((own, x)) = sorted.get(k) else {
        return Ok(());
    };
    for back in 1..k + 1 {
        match sorted.get(k - back) {
            Some((other, y)) if other == own => pairs.push((*x.max(y), *x.min(y)))?,
            _ => break,
        }
    }
    Ok(())
}

/// A label that is seen to lower classes `x` and `y`: number `last`, if that one is.
fn label_for_pair<A: Allocator>(
    p: &Presented<A>,
    v: &ClassTables<A>,
    weights: &[u32],
    x: usize,
    y: usize,
    last: usize,
) -> Option<usize> {
    if lowers(p, &v.lists, weights, x, y, last) == Some(true) {
        return Some(last);
    }
    (0..v.lists.labels.len()).find(|w| lowers(p, &v.lists, weights, x, y, *w) == Some(true))
}

/// A label that is seen to lower class `x`: number `last`, if that one is.
fn label_for_class<A: Allocator>(
    p: &Presented<A>,
    v: &ClassTables<A>,
    weights: &[u32],
    x: usize,
    last: usize,
) -> Option<usize> {
    if lowers_class(p, &v.lists, weights, x, last) == Some(true) {
        return Some(last);
    }
    (0..v.lists.labels.len()).find(|w| lowers_class(p, &v.lists, weights, x, *w) == Some(true))
}

/// Adds the label, if it isn't there.
fn add_label<A: Allocator>(labels: &mut Vec<u32, A>, w: usize) -> Result<(), Memory> {
    let number = w.min(u32::MAX as usize) as u32;
    if !labels.contains(&number) {
        labels.push(number)?;
    }
    Ok(())
}

/// Adds labels that are seen to lower each class of more than one word, and says whether there are such.
fn lower_classes<A: Allocator>(
    p: &Presented<A>,
    v: &ClassTables<A>,
    weights: &[u32],
    labels: &mut Vec<u32, A>,
) -> Result<bool, Memory> {
    let mut last = 0;
    for x in 0..v.tables.classes {
        if !is_alone(&v.lists, x) {
            match label_for_class(p, v, weights, x, last) {
                Some(w) => last = w,
                None => return Ok(false),
            }
            add_label(labels, last)?;
        }
    }
    Ok(true)
}

impl<A: Allocator + Copy> UntoldPairs<A> {
    /// The pairs of classes with the same marks beside all labels.
    ///
    /// # Errors
    ///
    /// `Limit`, if there are very many, and want of memory.
    pub fn of(alloc: A, p: &Presented<A>, v: &ClassTables<A>) -> Result<UntoldPairs<A>, TablesFault>
        ensures { IfErr result (λ f. IsTrueOf p.now f) }
    {
        let marks = ClassMarks::of(alloc, v)?;
        let sorted = by_signature(alloc, &marks, v.tables.classes)?;
        let mut pairs = Vec::new(alloc);
        for k in 0..sorted.len() {
            add_pairs(&mut pairs, &sorted, k)?;
            if pairs.len() > MOST_PAIRS {
                return Err(TablesFault::Limit);
            }
        }
        Ok(UntoldPairs { marks, pairs })
    }

    /// Labels that are seen to lower each pair, or each class of more than one word, by such weights of letters, if that is
    /// seen before too many looks.
    pub fn lowered_by(
        &self,
        alloc: A,
        p: &Presented<A>,
        v: &ClassTables<A>,
        weights: &[u32],
    ) -> Result<Option<Vec<u32, A>>, Memory> {
        let mut labels = Vec::new(alloc);
        if lower_classes(p, v, weights, &mut labels)? && self.lower(p, v, weights, &mut labels)? {
            Ok(Some(labels))
        } else {
            Ok(None)
        }
    }
}

impl<A: Allocator> UntoldPairs<A> {
    /// A label that may tell the classes apart.
    pub(crate) fn telling(&self, x: usize, y: usize) -> Option<usize> {
        self.marks.telling(x, y)
    }

    /// Adds labels that are seen to lower each pair, and says whether there are such.
    fn lower(
        &self,
        p: &Presented<A>,
        v: &ClassTables<A>,
        weights: &[u32],
        labels: &mut Vec<u32, A>,
    ) -> Result<bool, Memory> {
        let mut last = 0;
        let mut left = MOST_LOOKS / (p.basis.rules().len() + 1);
        for (x, y) in self.pairs.iter() {
            let Some(w) = label_for_pair(p, v, weights, *x as usize, *y as usize, last) else {
                return Ok(false);
            };
            let looks = if w == last { 1 } else { w.saturating_add(2) };
            if left < looks {
                return Ok(false);
            }
            left -= looks;
            last = w;
            add_label(labels, w)?;
        }
        Ok(true)
    }
}
