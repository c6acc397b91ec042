//! Shapes tried beside a wrong quotient.
use crate::claiming::Sketch;
use crate::counted::Cycles;
use crate::elements::elements_of;
use crate::fitting::fits;
use crate::merging::merged;
use crate::outcomes::{Outcomes, View};
use crate::refining::refined;
use crate::shapes::Shape;
use crate::states::states_of;
use allocation::SmallAllocator;
use octal_code::Code;
use presentation_search::{ClaimValues, FoundPresentation, present_claim};
use quotient_search::{Halt, Work};
use running_pairs::{Fold, at, places_by_size, rest, share};
use std::alloc::Allocator;

/// The most states of a shape.
const MOST_STATES: usize = 400_000;

/// Signed tracks that are tried: from where on counts come again in the monoid, how far the difference
/// is told, and by what modulus beyond.
const SIGNED: &[(usize, usize, usize)] = &[
    (2, 3, 2),
    (2, 4, 2),
    (3, 4, 2),
    (3, 6, 2),
    (3, 4, 6),
    (4, 6, 2),
];

/// Tries of shapes, so many at most.
#[derive(Drop)]
pub struct Tries<'a, A: Allocator> {
    pub code: &'a Code,
    pub view: &'a View<'a, A>,
    pub outcomes: &'a Outcomes<A>,
    pub cycles: &'a Cycles<A>,
    pub left: usize,
}

/// The presentation of a claim, if it is accepted and is that of an infinite quotient.
pub fn judged<A: SmallAllocator + Copy>(
    alloc: A,
    claim: &ClaimValues<A>,
) -> Result<Option<FoundPresentation<A>>, Halt> {
    match present_claim(alloc, claim)? {
        Ok(found) if found.quotient().order().is_none() => Ok(Some(found)),
        _ => Ok(None),
    }
}

/// How far counts' weights go, for so many heaps.
fn spread(rank: usize) -> usize {
    match rank {
        2 | 4 => 4,
        3 => 3,
        _ => 2,
    }
}

/// The weight of a heap in a code of weights: less than the spread if the heap goes down.
fn digit(code: usize, rank: usize, i: usize) -> usize {
    let base = spread(rank).saturating_mul(2).saturating_add(1);
    let mut left = code;
    for _ in 0..i {
        left = share(left, base);
    }
    rest(left, base)
}

/// How much all weights are together.
fn weight_of(code: usize, rank: usize) -> usize {
    let mut sum = 0usize;
    for i in 0..rank {
        sum = sum.saturating_add(digit(code, rank, i).abs_diff(spread(rank)));
    }
    sum
}

/// Whether some heap goes down, and the last that goes at all goes up.
fn is_mixed(code: usize, rank: usize) -> bool {
    let mut goes_down = false;
    let mut is_last_up = false;
    for i in 0..rank {
        let found = digit(code, rank, i);
        goes_down = goes_down || found < spread(rank);
        if found != spread(rank) {
            is_last_up = found > spread(rank);
        }
    }
    goes_down && is_last_up
}

/// The codes of weights, the smaller ones first.
fn codes<A: Allocator + Copy>(alloc: A, rank: usize) -> Result<Vec<usize, A>, Halt> {
    let mut count = 1usize;
    for _ in 0..rank {
        count = count.saturating_mul(spread(rank).saturating_mul(2).saturating_add(1));
    }
    let mut sums: Vec<usize, A> = Vec::new(alloc);
    for code in 0..count {
        sums.push(weight_of(code, rank))?;
    }
    let sorted = places_by_size(alloc, &sums)?;
    let mut found: Vec<usize, A> = Vec::new(alloc);
    for code in sorted.iter() {
        if is_mixed(*code, rank) {
            found.push(*code)?;
        }
    }
    Ok(found)
}

impl<A: SmallAllocator + Copy> Tries<'_, A> {
    /// The presentation by a shape, if there is one.
    fn try_shape(
        &mut self,
        shape: &Shape<A>,
        work: &mut Work,
    ) -> Result<Option<FoundPresentation<A>>, Halt> {
        if !fits(self.view, self.outcomes, shape, work)? {
            return Ok(None);
        }
        self.left = self.left.saturating_sub(1);
        let count = shape.combinations().saturating_mul(self.view.base.count());
        if count > MOST_STATES {
            return Ok(None);
        }
        match self.claim_of(shape, work)? {
            Some(claim) => judged(self.view.alloc, &claim),
            None => Ok(None),
        }
    }

    /// The claim of a shape that fits, if it isn't too large.
    fn claim_of(&self, shape: &Shape<A>, work: &mut Work) -> Result<Option<ClaimValues<A>>, Halt> {
        let alloc = self.view.alloc;
        let mut found = states_of(self.view, self.outcomes, shape, work)?;
        let classes = refined(alloc, &found, work)?;
        let roots = merged(alloc, &mut found, classes, work)?;
        let last = self.view.quotient.heaps().len();
        let elements = elements_of(alloc, &found, self.view.generators, roots, last, work)?;
        let sketch = Sketch {
            alloc,
            generators: self.view.generators,
            counted: self.view.counted,
            shape,
            states: &found,
            elements: &elements,
        };
        sketch.claim(self.code, work)
    }

    /// The period of a heap that counts.
    fn period(&self, i: usize) -> usize {
        at(&self.cycles.periods, at(self.view.counted, i))
    }

    /// A shape by which two heaps run against each other, and the monoid knows of neither.
    fn unsigned(&self, falling: usize, rising: usize, corner: usize) -> Result<Shape<A>, Halt> {
        let fold = Fold {
            down: corner,
            up: corner,
            step: 1,
            down_top: corner.saturating_add(4),
            up_top: corner.saturating_add(5),
            modulus: 2,
        };
        let mut shape = Shape::new(self.view.alloc, fold);
        for i in 0..self.view.counted.len() {
            if i == falling {
                shape.add(0, 1, 1, 0)?;
            } else if i == rising {
                shape.add(0, 1, 0, 1)?;
            } else {
                shape.add(4, self.period(i), 0, 0)?;
            }
        }
        Ok(shape)
    }

    /// Tries the shapes by which two heaps run against each other.
    fn try_pair(
        &mut self,
        falling: usize,
        rising: usize,
        work: &mut Work,
    ) -> Result<Option<FoundPresentation<A>>, Halt> {
        for corner in 1..3usize {
            let shape = self.unsigned(falling, rising, corner)?;
            let found = self.try_shape(&shape, work)?;
            if found.is_some() {
                return Ok(found);
            }
        }
        Ok(None)
    }

    fn try_pairs(&mut self, work: &mut Work) -> Result<Option<FoundPresentation<A>>, Halt> {
        for rising in 0..self.view.counted.len() {
            for falling in 0..rising {
                let found = self.try_pair(falling, rising, work)?;
                if found.is_some() {
                    return Ok(found);
                }
            }
        }
        Ok(None)
    }

    /// A shape with a signed track.
    fn signed(
        &self,
        lead: usize,
        width: usize,
        modulus: usize,
        code: usize,
    ) -> Result<Shape<A>, Halt> {
        let top = width.saturating_add(modulus);
        let fold = Fold {
            down: 0,
            up: 0,
            step: 1,
            down_top: top,
            up_top: top,
            modulus,
        };
        let rank = self.view.counted.len();
        let mut shape = Shape::new(self.view.alloc, fold);
        for i in 0..rank {
            let found = digit(code, rank, i);
            let down = spread(rank).saturating_sub(found);
            let up = found.saturating_sub(spread(rank));
            shape.add(lead, self.period(i), down, up)?;
        }
        Ok(shape)
    }

    /// Tries the weights of a signed track.
    fn try_weights(
        &mut self,
        codes: &[usize],
        kind: (usize, usize, usize),
        work: &mut Work,
    ) -> Result<Option<FoundPresentation<A>>, Halt> {
        let (lead, width, modulus) = kind;
        for code in codes.iter() {
            if self.left == 0 {
                break;
            }
            let shape = self.signed(lead, width, modulus, *code)?;
            let found = self.try_shape(&shape, work)?;
            if found.is_some() {
                return Ok(found);
            }
        }
        Ok(None)
    }

    /// Tries all shapes.
    pub fn try_all(&mut self, work: &mut Work) -> Result<Option<FoundPresentation<A>>, Halt> {
        let found = self.try_pairs(work)?;
        if found.is_some() {
            return Ok(found);
        }
        let codes = codes(self.view.alloc, self.view.counted.len())?;
        for kind in SIGNED.iter() {
            let found = self.try_weights(&codes, *kind, work)?;
            if found.is_some() {
                return Ok(found);
            }
        }
        Ok(None)
    }
}
