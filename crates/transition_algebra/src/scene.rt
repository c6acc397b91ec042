//! Whose options are tried.
ghost use Rattle.std.specs.Prelude.{◌*◌, ◌≤◌};
ghost use Rattle.std.proofs.Props.{props};
ghost use Rattle.monoid_table.specs.PretendingTables.{IsInto};

use monoid_table::{Phi, Table};
use octal_code::Code;
use std::alloc::Allocator;

/// What a trial is of: a code, a table whose elements fit in the lanes, and those of the heaps.
#[derive(Drop)]
pub(crate) struct Scene<'a, const LANES: usize, A: Allocator> {
    pub(crate) code: &'a Code,
    pub(crate) table: &'a Table<A>,
    pub(crate) phi: &'a Phi<A>,
    pub(crate) ghost fits: { table.now.order ≤ 64 * LANES },
    pub(crate) ghost into: { IsInto table.now phi.now } by { Prim.hlevel props },
}
