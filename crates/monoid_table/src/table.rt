//! Tables of products whose laws were checked.
ghost use Rattle.std.specs.Prelude.{◌≡◌, ◌<◌, ◌≤◌, ◌↔◌, ℕ, List, All, IfOk, IsOk, Err, length, slice_index};
ghost use Rattle.std.specs.List.Sorted.{IsPermutation};
ghost use Rattle.misere_theory.specs.declared.TheConstants.{LARGEST_ORDER};
ghost use Rattle.misere_theory.specs.Quotients.{LawFails, Monoid};
ghost use Rattle.monoid_table.specs.Grids.{IsShaped, IsTable, entry, times_in};
ghost use Rattle.monoid_table.specs.Laws.{power_of, product_of};

use crate::fault::LawFault;
use crate::job::TableJob;
use crate::monoid::{CommMonoid, power, product};
use crate::triples::{entry_at, row_at};
use std::alloc::{Allocator, Global};
use std::marker::Model;

/// A commutative monoid on the numbers below its order, with identity 0, given by its products.
#[derive(Drop)]
pub struct Table<A: Allocator = Global> {
    order: u16,
    rows: Vec<u16, A>,
}

impl<A: Allocator> Model for Table<A> {
    ghost use Rattle.monoid_table.specs.Grids.{Grid, IsTable};

    ghost Value = { Grid };

    ghost view = { λ t. record { order = t.order; entries = t.rows.items } };

    ghost invariant = { λ t. IsTable t.order t.rows.items };
}

impl<A: Allocator> Table<A> {
    /// The table of these rows, which lie one after another: the product of x and y is number y of
    /// row x.
    ///
    /// Refuses `Shape`, and where the shape is right, `Law`; the rows are dropped then. Takes no
    /// memory.
    pub fn new(order: u16, rows: Vec<u16, A>) -> Result<Table<A>, LawFault>
        ensures given { IfOk result (λ t. t ≡ record { order = order; entries = rows.items }) }
        ensures ok { IsOk result ↔ IsTable order rows.items }
        ensures shape { (result ≡ Err LawFault.Shape) ↔ (¬ IsShaped order rows.items) }
        ensures law { (result ≡ Err LawFault.Law)
            ↔ (IsShaped order rows.items × LawFails order (entry order rows.items)) }
    {
        let mut job = TableJob::new(order, rows)?;
        job.work(u64::MAX)?;
        Ok(job.finish())
    }

    /// Rows that were checked.
    pub(crate) fn from_checked(order: u16, rows: Vec<u16, A>) -> Table<A>
        requires { IsTable order rows.items }
        ensures { result ≡ record { order = order; entries = rows.items } }
    {
        Table { order, rows }
    }

    /// How many elements there are: 1 to `LARGEST_ORDER`. They are the numbers below it, and 0 is
    /// the identity.
    pub fn order(&self) -> u16
        ensures value { result ≡ self.now.order }
        ensures range { (1 ≤ result) × (result ≤ LARGEST_ORDER) }
        ensures shaped { IsShaped self.now.order self.now.entries }
        ensures monoid { Monoid self.now.order (times_in self.now) }
    {
        self.order
    }

    /// The product of two elements.
    pub fn times(&self, x: u16, y: u16) -> u16
        requires x_in { x < self.now.order }
        requires y_in { y < self.now.order }
        ensures value { result ≡ times_in self.now x y }
        ensures within { result < self.now.order }
        ensures shaped { IsShaped self.now.order self.now.entries }
        ensures monoid { Monoid self.now.order (times_in self.now) }
    {
        entry_at(&self.rows, self.order as usize, x as usize, y as usize) as u16
    }

    /// The products of `x` with 0, 1, and so on.
    pub fn row(&self, x: u16) -> &[u16]
        requires { x < self.now.order }
        ensures length_is { length result.now ≡ self.now.order }
        ensures products { (y : ℕ) → y < self.now.order
            → slice_index result.now y ≡ times_in self.now x y }
        ensures within { All (λ e. e < self.now.order) result.now }
        ensures shaped { IsShaped self.now.order self.now.entries }
        ensures monoid { Monoid self.now.order (times_in self.now) }
    {
        row_at(&self.rows, self.order as usize, x as usize)
    }

    /// The product of the elements, which doesn't depend on their order.
    pub fn product(&self, elements: &[u16]) -> u16
        requires { All (λ e. e < self.now.order) elements.now }
        ensures value { result ≡ product_of 0 (times_in self.now) elements.now }
        ensures any_order { (others : List ℕ) → IsPermutation elements.now others
            → result ≡ product_of 0 (times_in self.now) others }
        ensures within { result < self.now.order }
    {
        product(self, elements)
    }

    /// The product of `count` times the element.
    pub fn power(&self, x: u16, count: u64) -> u16
        requires { x < self.now.order }
        ensures value { result ≡ power_of 0 (times_in self.now) x count }
        ensures within { result < self.now.order }
    {
        power(self, &x, count)
    }

    /// The rows, as `new` was given them.
    pub fn into_rows(self) -> Vec<u16, A>
        ensures { result.items ≡ self.entries }
    {
        let Table { rows, .. } = self;
        rows
    }
}

/// The products of a table are those of a commutative monoid with identity 0.
pub fn is_monoid<A: Allocator>(table: &Table<A>)
    ensures shaped { IsShaped table.now.order table.now.entries }
    ensures monoid { Monoid table.now.order (times_in table.now) }
{
    let _ = &table.order;
}

impl<A: Allocator> CommMonoid for Table<A> {
    type Element = u16;

    ghost use Rattle.std.specs.Prelude.{◌<◌};
    ghost use Rattle.monoid_table.specs.Grids.{times_in};
    ghost use Rattle.monoid_table.specs.Tables.{IsTableGrid, table_laws};

    ghost is_lawful = { IsTableGrid };

    ghost is_in = { λ t x. x < t.order };

    ghost identity = { λ _. 0 };

    ghost multiply = { times_in };

    ghost laws = { table_laws };

    fn one(&self) -> u16 {
        let _ = &self.order;
        0
    }

    fn times(&self, x: &u16, y: &u16) -> u16 {
        entry_at(&self.rows, self.order as usize, *x as usize, *y as usize) as u16
    }
}
