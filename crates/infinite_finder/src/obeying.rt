//! Whether a claim obeys the rule of misère play, as far as is tried. A claim that fails isn't worth a presentation.
use crate::claiming::Sketch;
use heap_options::options;
use octal_code::Code;
use presentation_search::{ClaimValues, Value, ValueTable};
use quotient_search::{Halt, Work};
use running_pairs::{at, rest};
use std::alloc::Allocator;

/// How many positions are tried at least, and at most.
const FEWEST_POSITIONS: usize = 4_000;

const MOST_POSITIONS: usize = 40_000;

/// What one position takes, by and large.
const POSITION_WORK: usize = 10_000;

/// Heaps of one size, and how many there are.
#[derive(Clone, Copy)]
struct Copies {
    heap: usize,
    count: usize,
}

/// Numbers that look as if they were drawn.
#[derive(Drop)]
struct Draws {
    state: u64,
}

impl Draws {
    /// The next number below a bound.
    fn below(&mut self, bound: usize) -> usize {
        self.state = self
            .state
            .wrapping_mul(6_364_136_223_846_793_005)
            .wrapping_add(1_442_695_040_888_963_407);
        rest((self.state >> 33) as usize, bound)
    }
}

/// The values of the heaps' options, one heap after another.
#[derive(Drop)]
struct OptionValues<A: Allocator> {
    values: Vec<Value, A>,
    /// Where those of each heap end.
    ends: Vec<usize, A>,
}

/// A claim, and what the options of its heaps are worth.
#[derive(Drop)]
struct Rule<'a, A: Allocator> {
    claim: &'a ClaimValues<A>,
    options: OptionValues<A>,
}

/// A power of a value.
fn power<A: Allocator>(values: &ValueTable<A>, value: Value, count: usize) -> Value {
    let mut found = Value::ONE;
    for _ in 0..count {
        found = values.times(found, value);
    }
    found
}

/// The value of a heap, if it has one.
fn value_of<A: Allocator>(claim: &ClaimValues<A>, heap: usize) -> Option<Value> {
    if heap == 0 {
        return Some(Value::ONE);
    }
    claim.heaps.get(heap.wrapping_sub(1)).copied().flatten()
}

/// The value of heaps, if each has one.
fn value_of_heaps<A: Allocator>(claim: &ClaimValues<A>, heaps: &[u64]) -> Option<Value> {
    let mut value = Value::ONE;
    for heap in heaps.iter() {
        value = claim.values.times(value, value_of(claim, *heap as usize)?);
    }
    Some(value)
}

/// Adds the values of a heap's options. Answers whether each heap of theirs has a value.
fn add_options<A: Allocator>(
    claim: &ClaimValues<A>,
    code: &Code,
    heap: usize,
    found: &mut OptionValues<A>,
) -> Result<bool, Halt> {
    for left in options(code, heap as u64) {
        match value_of_heaps(claim, left.heaps().as_slice()) {
            Some(value) => found.values.push(value)?,
            None => return Ok(false),
        }
    }
    Ok(true)
}

/// The values of all heaps' options, unless an option has a heap without one.
fn options_of<A: Allocator + Copy>(
    alloc: A,
    claim: &ClaimValues<A>,
) -> Result<Option<OptionValues<A>>, Halt> {
    let code = claim.code;
    let mut found = OptionValues {
        values: Vec::new(alloc),
        ends: Vec::new(alloc),
    };
    for heap in 1..claim.heaps.len().saturating_add(1) {
        let has_value = value_of(claim, heap).is_some();
        if has_value && !add_options(claim, &code, heap, &mut found)? {
            return Ok(None);
        }
        let end = found.values.len();
        found.ends.push(end)?;
    }
    Ok(Some(found))
}

impl<A: Allocator> Rule<'_, A> {
    /// The value of a position without one of the heaps of one size.
    fn value_without(&self, position: &[Copies], left_out: usize) -> Value {
        let values = &self.claim.values;
        let mut value = Value::ONE;
        for (place, copies) in position.iter().enumerate() {
            let count = copies.count.saturating_sub(usize::from(place == left_out));
            let heap = value_of(self.claim, copies.heap).unwrap_or(Value::ONE);
            value = values.times(value, power(values, heap, count));
        }
        value
    }

    /// The values of a heap's options.
    fn options_of(&self, heap: usize) -> &[Value] {
        let from = match heap.checked_sub(2) {
            Some(before) => at(&self.options.ends, before),
            None => 0,
        };
        let to = at(&self.options.ends, heap.wrapping_sub(1));
        self.options.values.get(from..to).unwrap_or(&[])
    }

    /// Whether the rule holds at a position.
    fn holds_at(&self, position: &[Copies]) -> bool {
        let values = &self.claim.values;
        let mut is_movable = false;
        let mut wins = false;
        for (place, copies) in position.iter().enumerate() {
            if copies.count == 0 {
                continue;
            }
            let beside = self.value_without(position, place);
            for option in self.options_of(copies.heap).iter() {
                is_movable = true;
                wins = wins || values.is_p_beside(*option, beside);
            }
        }
        let all = self.value_without(position, usize::MAX);
        values.is_p(all) == (is_movable && !wins)
    }
}

impl<A: Allocator + Copy> Sketch<'_, A> {
    /// The heaps of an element's least word, with copies of those that count.
    fn position(&self, element: usize, draws: &mut Draws) -> Result<Vec<Copies, A>, Halt> {
        let fold = self.shape.fold;
        let most = fold
            .down_top
            .max(fold.up_top)
            .saturating_mul(2)
            .saturating_add(fold.modulus)
            .saturating_add(4);
        let mut position: Vec<Copies, A> = Vec::new(self.alloc);
        for heap in self.word(element)?.iter() {
            position.push(Copies {
                heap: *heap,
                count: 1,
            })?;
        }
        for letter in self.counted.iter() {
            position.push(Copies {
                heap: at(&self.generators.heaps, *letter),
                count: draws.below(most),
            })?;
        }
        Ok(position)
    }

    /// Whether a claim obeys the rule at each position that is tried.
    pub fn obeys(&self, claim: &ClaimValues<A>, work: &mut Work) -> Result<bool, Halt> {
        let Some(options) = options_of(self.alloc, claim)? else {
            return Ok(false);
        };
        let rule = Rule { claim, options };
        let order = self.elements.order();
        let tried = order
            .saturating_mul(4)
            .clamp(FEWEST_POSITIONS, MOST_POSITIONS);
        let mut draws = Draws { state: 1 };
        for number in 0..tried {
            work.spend(POSITION_WORK)?;
            let position = self.position(rest(number, order), &mut draws)?;
            if !rule.holds_at(&position) {
                return Ok(false);
            }
        }
        Ok(true)
    }
}
