//! A table checked in pieces.
ghost use Rattle.std.specs.Prelude.{◌≡◌, ◌⊎◌, ◌+◌, ◌-◌, ◌*◌, ◌<◌, ◌≤◌, ◌↔◌, true, false, IfOk, OnErr, Ok, Err, IsOk};
ghost use Rattle.misere_theory.specs.Quotients.{LawFails};
ghost use Rattle.monoid_table.specs.Grids.{IsShaped, IsTable, entry};
ghost use Rattle.monoid_table.specs.Turns.{JobState, triples, is_over, turns, fresh};
ghost use Rattle.monoid_table.specs.Faults.{answer_of};

use crate::fault::LawFault;
use crate::light::is_lawful;
use crate::table::Table;
use crate::triples::{is_shaped, next_run};
use std::alloc::{Allocator, Global};
use std::marker::Model;

/// Rows of products whose laws are checked a triple x, y, z at a time.
///
/// The first unit looks whether every law holds by the generators alone. Where it does, no triple
/// needs to be looked at.
#[derive(Drop)]
pub struct TableJob<A: Allocator = Global> {
    order: u16,
    rows: Vec<u16, A>,
    spent: u64,
    refused: bool,
    lawful: bool,
}

impl<A: Allocator> Model for TableJob<A> {
    ghost use Rattle.monoid_table.specs.Turns.{JobState};

    ghost Value = { JobState };

    ghost view = { λ j.
        record {
          grid = record { order = j.order; entries = j.rows.items };
          spent = j.spent;
          refused = j.refused;
        } };

    ghost use Rattle.monoid_table.specs.Jobs.{IsJob};

    ghost invariant = { λ j. IsJob j.order j.rows.items j.spent j.refused j.lawful };
}

impl<A: Allocator> TableJob<A> {
    /// Takes the rows over, with nothing checked yet but their shape.
    pub fn new(order: u16, rows: Vec<u16, A>) -> Result<TableJob<A>, LawFault>
        ensures given { IfOk result
            (λ job. job ≡ fresh (record { order = order; entries = rows.items })) }
        ensures ok { IsOk result ↔ IsShaped order rows.items }
        ensures shape { (result ≡ Err LawFault.Shape) ↔ (¬ IsShaped order rows.items) }
        ensures no_law { OnErr result (result ≡ Err LawFault.Shape) }
    {
        if !is_shaped(&rows, order as usize) {
            return Err(LawFault::Shape);
        }
        Ok(TableJob {
            order,
            rows,
            spent: 0,
            refused: false,
            lawful: false,
        })
    }

    /// The triples looked at so far, one that failed among them.
    pub fn done(&self) -> u64
        ensures { result ≡ self.now.spent }
    {
        self.spent
    }

    /// Whether no triple is left to look at.
    fn is_over(&self) -> bool
        ensures { result ≡ is_over self.now }
    {
        self.refused || self.spent == self.all()
    }

    /// The number of all triples.
    fn all(&self) -> u64
        ensures { result ≡ triples self.now.grid.order }
    {
        let order = self.order as u64;
        order * order * order
    }

    /// Looks at some triples, at most `units`.
    fn run(&mut self, units: u64) -> u64
        requires some { 0 < units }
        requires going { is_over self.old ≡ false }
        ensures within { (0 < result) × (result ≤ units) }
        ensures state { self.new ≡ turns result self.old }
    {
        let order = self.order as usize;
        self.lawful = self.lawful || (self.spent == 0 && is_lawful(&self.rows, order));
        let run = next_run(&self.rows, order, self.lawful, self.spent, units);
        self.spent += run.units;
        self.refused = run.broken;
        run.units
    }

    /// Looks at triples as `work` does, at most `units`, and answers at how many. The last one, and
    /// one where a law fails, it leaves to `work`: 0 comes only before one of these, or for 0 units.
    pub fn go_on(&mut self, units: u64) -> u64
        requires { is_over self.old ≡ false }
        ensures within { result ≤ units }
        ensures some { result ≡ 0 → (units ≡ 0) ⊎ (is_over (turns 1 self.old) ≡ true) }
        ensures state { self.new ≡ turns result self.old }
        ensures going { is_over self.new ≡ false }
    {
        let most = units.min(self.all() - self.spent - 1);
        if most == 0 {
            return 0;
        }
        let order = self.order as usize;
        self.lawful = self.lawful || self.spent == 0 && is_lawful(&self.rows, order);
        let run = next_run(&self.rows, order, self.lawful, self.spent, most);
        let passed = if run.broken { run.units - 1 } else { run.units };
        self.spent += passed;
        passed
    }

    /// Looks at the next `units` triples, a unit each: true once all were looked at and every law
    /// held.
    ///
    /// Answers `Law` at the first triple where a law fails, and at every later call. What the job
    /// holds and answers depends on the units spent in all, not on how they were cut. After the end
    /// no unit is spent.
    pub fn work(&mut self, units: u64) -> Result<bool, LawFault>
        ensures state { self.new ≡ turns units self.old }
        ensures answer { result ≡ answer_of self.new }
        ensures law { OnErr result
            (LawFails self.old.grid.order (entry self.old.grid.order self.old.grid.entries)) }
        ensures table { (result ≡ Ok true) → IsTable self.old.grid.order self.old.grid.entries }
    {
        let mut left = units;
        while left > 0 && !self.is_over() {
            left -= self.run(left);
        }
        self.answer()
    }

    /// What `work` says of the triples looked at so far.
    fn answer(&self) -> Result<bool, LawFault>
        ensures answer { result ≡ answer_of self.now }
        ensures law { OnErr result
            (LawFails self.now.grid.order (entry self.now.grid.order self.now.grid.entries)) }
        ensures table { (result ≡ Ok true) → IsTable self.now.grid.order self.now.grid.entries }
    {
        if self.refused {
            return Err(LawFault::Law);
        }
        Ok(self.spent == self.all())
    }

    /// The table, once every law was seen to hold.
    pub fn finish(self) -> Table<A>
        requires { answer_of self ≡ Ok true }
        ensures value { result ≡ self.grid }
        ensures table { IsTable result.order result.entries }
    {
        let TableJob { order, rows, .. } = self;
        Table::from_checked(order, rows)
    }
}
