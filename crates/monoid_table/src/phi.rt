//! Pretending functions.
ghost use Rattle.std.specs.Prelude.{◌≡◌};
ghost use Rattle.monoid_table.specs.Pretending.{phi_at, kind_of, HasElement, IsPretending};

use std::alloc::{Allocator, Global};
use std::marker::Model;

/// An element for each heap size from 1 up: those of the heaps below start + period are written
/// down, and from start on they repeat with the period. A period of 0 stands for none: then only the
/// heaps below start have elements. There are 1 to `MOST_ENTRIES` entries.
///
/// The pretending function of Plambeck and Siegel, "Misère quotients for impartial games".
#[derive(Drop)]
pub struct Phi<A: Allocator = Global> {
    start: u64,
    period: u64,
    entries: Vec<u16, A>,
}

impl<A: Allocator> Model for Phi<A> {
    ghost use Rattle.monoid_table.specs.Pretending.{Pretending, IsPretending};

    ghost Value = { Pretending };

    ghost view = { λ f. record { start = f.start; period = f.period; entries = f.entries.items } };

    ghost invariant = { λ f.
        IsPretending (record { start = f.start; period = f.period; entries = f.entries.items }) };
}

impl<A: Allocator> Phi<A> {
    /// The function whose values at the heaps 1, 2, .., start + period - 1 are the entries.
    pub fn new(start: u64, period: u64, entries: Vec<u16, A>) -> Phi<A>
        requires { IsPretending
            (record { start = start; period = period; entries = entries.items }) }
        ensures { result ≡ record { start = start; period = period; entries = entries.items } }
    {
        Phi {
            start,
            period,
            entries,
        }
    }

    /// The heap from which on the elements repeat, or, where they don't, the first heap that has none.
    pub fn start(&self) -> u64
        ensures value { result ≡ self.now.start }
        ensures pretending { IsPretending self.now }
    {
        self.start
    }

    /// After how many heaps they repeat, or 0 where they don't.
    pub fn period(&self) -> u64
        ensures { result ≡ self.now.period }
    {
        self.period
    }

    /// The elements of the heaps 1 to start + period - 1.
    pub fn entries(&self) -> &[u16]
        ensures { result.now ≡ self.now.entries }
    {
        &self.entries
    }

    /// The last heap that has an element, or 0 where all have one.
    pub fn heaps(&self) -> u64
        ensures value { result ≡ kind_of self.now }
        ensures pretending { IsPretending self.now }
    {
        if self.period == 0 { self.start - 1 } else { 0 }
    }

    /// The element of the heap n, of any size from 1 up, or where there is no period up to the last
    /// that has one.
    pub fn at(&self, n: u64) -> u16
        requires { HasElement self.now n }
        ensures { result ≡ phi_at self.now n }
    {
        let place = if n < self.start + self.period {
            n
        } else {
            (n - self.start) % self.period + self.start
        };
        self.entries[(place - 1) as usize]
    }

    /// The entries, as `new` was given them.
    pub fn into_entries(self) -> Vec<u16, A>
        ensures { result.items ≡ self.entries }
    {
        let Phi { entries, .. } = self;
        entries
    }
}

/// The numbers of a pretending function lie in their ranges.
pub fn is_pretending<A: Allocator>(phi: &Phi<A>)
    ensures { IsPretending phi.now }
{
    let _ = &phi.start;
}
