//! Tables that somebody brings.
ghost use Rattle.std.specs.Prelude.{◌≡◌, ◌<◌, ◌≤◌};
ghost use Rattle.misere_theory.specs.declared.TheConstants.{LARGEST_ORDER};
ghost use Rattle.monoid_table.specs.Grids.{entry};
ghost use Rattle.own_quotients.specs.Tables.{Own, IsOwn};

use octal_code::Code;
use std::alloc::{Allocator, Global};
use std::marker::Model;

/// A quotient in a numbering of one's own: a code, products of the numbers below an order, elements
/// of heaps, and a portion. Nothing is believed of it but that its numbers are in their ranges.
#[derive(Drop)]
pub struct OwnTable<A: Allocator = Global> {
    code: Code,
    order: u16,
    start: u16,
    period: u16,
    heaps: Vec<u16, A>,
    portion: Vec<u16, A>,
    rows: Vec<u16, A>,
}

impl<A: Allocator> Model for OwnTable<A> {
    ghost use Rattle.own_quotients.specs.Tables.{Own, IsOwn};

    ghost Value = { Own };

    ghost view = { λ t.
        record {
          code = t.code;
          order = t.order;
          start = t.start;
          period = t.period;
          heaps = t.heaps.items;
          portion = t.portion.items;
          rows = t.rows.items;
        } };

    ghost invariant = { λ t.
        IsOwn
        (record {
          code = t.code;
          order = t.order;
          start = t.start;
          period = t.period;
          heaps = t.heaps.items;
          portion = t.portion.items;
          rows = t.rows.items;
        }) };
}

impl<A: Allocator> OwnTable<A> {
    /// The table of these lists.
    pub(crate) fn from_lists(
        code: Code,
        numbers: (u16, u16, u16),
        heaps: Vec<u16, A>,
        portion: Vec<u16, A>,
        rows: Vec<u16, A>,
    ) -> OwnTable<A>
        requires { IsOwn (record {
          code = code;
          order = numbers.0;
          start = numbers.1;
          period = numbers.2;
          heaps = heaps.items;
          portion = portion.items;
          rows = rows.items;
        }) }
        ensures { result ≡ record {
          code = code;
          order = numbers.0;
          start = numbers.1;
          period = numbers.2;
          heaps = heaps.items;
          portion = portion.items;
          rows = rows.items;
        } }
    {
        let (order, start, period) = numbers;
        OwnTable {
            code,
            order,
            start,
            period,
            heaps,
            portion,
            rows,
        }
    }

    /// The code of the game.
    pub fn code(&self) -> &Code
        ensures { result.now ≡ self.now.code }
    {
        &self.code
    }

    /// How many elements there are: they are the numbers below it.
    pub fn order(&self) -> u16
        ensures value { result ≡ self.now.order }
        ensures range { (2 ≤ result) × (result ≤ LARGEST_ORDER) }
        ensures own { IsOwn self.now }
    {
        self.order
    }

    /// The heap from which on the elements of heaps repeat, or, where they don't, the first that has
    /// none.
    pub fn start(&self) -> u16
        ensures { result ≡ self.now.start }
    {
        self.start
    }

    /// After how many heaps they repeat, or 0 where they don't.
    pub fn period(&self) -> u16
        ensures { result ≡ self.now.period }
    {
        self.period
    }

    /// The elements of the heaps 1, 2, and so on.
    pub fn heaps(&self) -> &[u16]
        ensures value { result.now ≡ self.now.heaps }
        ensures own { IsOwn self.now }
    {
        &self.heaps
    }

    /// The elements of the portion, rising.
    pub fn portion(&self) -> &[u16]
        ensures { result.now ≡ self.now.portion }
    {
        &self.portion
    }

    /// The rows of the products, one behind the other.
    pub fn rows(&self) -> &[u16]
        ensures value { result.now ≡ self.now.rows }
        ensures own { IsOwn self.now }
    {
        &self.rows
    }

    /// The product of two elements.
    pub fn times(&self, x: u16, y: u16) -> u16
        requires x_in { x < self.now.order }
        requires y_in { y < self.now.order }
        ensures value { result ≡ entry self.now.order self.now.rows x y }
        ensures within { result < self.now.order }
    {
        self.rows[x as usize * self.order as usize + y as usize]
    }
}
