//! A certificate under test.
ghost use Rattle.std.specs.Prelude.{◌≡◌, ◌+◌, ◌-◌, ◌<◌, ◌≤◌, length, slice_index};
ghost use Rattle.misere_theory.specs.Certificates.{IsHeapOf, times_of, phi_at, key_of};
ghost use Rattle.check_machine.specs.LawfulCertificates.{IsLawful};

use crate::lines::Lines;
use certificate::Key;
use monoid_table::{Phi, Table};
use octal_code::Code;
use std::alloc::{Allocator, Global};
use std::marker::Model;

/// A certificate whose table has the laws.
#[derive(Drop)]
pub struct LawfulCertificate<A: Allocator = Global> {
    pub code: Code,
    pub table: Table<A>,
    pub phi: Phi<A>,
    pub lines: Lines<A>,
}

impl<A: Allocator> Model for LawfulCertificate<A> {
    ghost use Rattle.misere_theory.specs.Certificates.{Certificate};
    ghost use Rattle.check_machine.specs.LawfulCertificates.{IsLawfulCertificate};
    ghost use Rattle.checker.specs.Parts.{parts_of, whole_of};

    ghost Value = { Certificate };

    ghost view = { λ s. whole_of s.lines s.code s.table s.phi };

    ghost invariant = { λ s. IsLawfulCertificate (parts_of s.lines s.code s.table s.phi) };
}

impl<A: Allocator> LawfulCertificate<A> {
    /// The order.
    pub fn order(&self) -> u16
        ensures value { result ≡ self.now.order }
        ensures lawful { IsLawful self.now }
    {
        is_lawful(self);
        self.table.order()
    }

    /// The heap from which on the elements of heaps repeat.
    pub fn start(&self) -> u16
        ensures value { result ≡ self.now.start }
        ensures lawful { IsLawful self.now }
    {
        is_lawful(self);
        self.phi.start() as u16
    }

    /// After how many heaps they repeat.
    pub fn period(&self) -> u16
        ensures value { result ≡ self.now.period }
        ensures lawful { IsLawful self.now }
    {
        is_lawful(self);
        self.phi.period() as u16
    }

    /// The product.
    pub fn times(&self, x: u16, y: u16) -> u16
        requires x_in { x < self.now.order }
        requires y_in { y < self.now.order }
        ensures value { result ≡ times_of self.now x y }
        ensures within { result < self.now.order }
    {
        self.table.times(x, y)
    }

    /// The element of a heap.
    pub fn phi(&self, n: u64) -> u16
        requires { IsHeapOf self.now n }
        ensures value { result ≡ phi_at self.now n }
        ensures within { result < self.now.order }
    {
        self.phi.at(n)
    }

    /// The key of an element above 0.
    pub fn key(&self, e: u16) -> Key
        requires some { 0 < e }
        requires below { e < self.now.order }
        ensures value { result ≡ key_of self.now e }
        ensures element_in { result.0 < self.now.order }
        ensures heap_in { result.1 < self.now.start + self.now.period }
        ensures from_one { 1 ≤ result.1 }
        ensures counts { IsHeapOf self.now result.1 }
    {
        self.lines.words[e as usize - 1]
    }

    /// The elements of the portion, rising.
    pub fn portion(&self) -> &[u16]
        ensures value { result.now ≡ self.now.portion }
        ensures lawful { IsLawful self.now }
    {
        &self.lines.portion
    }

    /// The keys of the elements from 1 on.
    pub fn words(&self) -> &[Key]
        ensures value { result.now ≡ self.now.words }
        ensures lawful { IsLawful self.now }
    {
        &self.lines.words
    }

    /// How many pairs of elements there are.
    pub fn pairs(&self) -> usize
        ensures value { result ≡ length self.now.apart }
    {
        self.lines.apart.len()
    }

    /// The element given as the least that tells the pair of this number apart.
    pub fn apart(&self, pair: usize) -> u16
        requires { pair < length self.now.apart }
        ensures value { result ≡ slice_index self.now.apart pair }
        ensures within { result < self.now.order }
    {
        self.lines.apart[pair]
    }
}

/// The numbers of a certificate are in their ranges, and its table has the laws.
pub fn is_lawful<A: Allocator>(certificate: &LawfulCertificate<A>)
    ensures { IsLawful certificate.now }
{
    // what every certificate holds is known where one of its fields is named
    let _ = &certificate.lines;
}
