//! Certificates whose lines fit one another.
ghost use Rattle.std.specs.Prelude.{◌≡◌, ◌≤◌, ◌+◌};
ghost use Rattle.std.specs.List.{concat};
ghost use Rattle.misere_theory.specs.declared.TheConstants.{LARGEST_ORDER, MOST_ENTRIES};
ghost use Rattle.misere_theory.specs.Certificates.{InRanges, kind_of};
ghost use Rattle.certificate_text.specs.Spelling.{IsWritable};
ghost use Rattle.certificate.specs.Fields.{IsWhole, certificate_of, pretending_of};

use crate::fields::Fields;
use certificate_lines::Key;
use monoid_table::Phi;
use octal_code::Code;
use std::alloc::{Allocator, Global};
use std::marker::Model;

/// A certificate that a text can say: each number lies in its range, and each list has as many as it
/// should, also those that a text in the third format leaves out.
#[derive(Drop)]
pub struct Cert<A: Allocator = Global> {
    fields: Fields<A>,
}

impl<A: Allocator> Model for Cert<A> {
    ghost use Rattle.misere_theory.specs.Certificates.{Certificate};
    ghost use Rattle.certificate.specs.Fields.{certificate_of, IsWhole};

    ghost Value = { Certificate };

    ghost view = { λ c. certificate_of c.fields };

    ghost invariant = { λ c. IsWhole c.fields };
}

impl<A: Allocator> Cert<A> {
    /// The certificate with these fields.
    pub fn from_fields(fields: Fields<A>) -> Cert<A>
        requires { IsWhole fields }
        ensures { result ≡ certificate_of fields }
    {
        Cert { fields }
    }

    /// The fields, without copying.
    pub fn into_fields(self) -> Fields<A>
        ensures whole { IsWhole result }
        ensures same { certificate_of result ≡ self }
    {
        let Cert { fields } = self;
        fields
    }

    /// The code of the game.
    pub fn code(&self) -> &Code
        ensures { result.now ≡ self.now.code }
    {
        &self.fields.code
    }

    /// How many elements the monoid has.
    pub fn order(&self) -> u16
        ensures value { result ≡ self.now.order }
        ensures range { (2 ≤ result) × (result ≤ LARGEST_ORDER) }
        ensures ranges { InRanges self.now }
    {
        self.fields.order
    }

    /// The heap from which on the elements of heaps repeat, or, of a partial certificate, the first
    /// heap of which it doesn't speak.
    pub fn start(&self) -> u64
        ensures value { result ≡ self.now.start }
        ensures range { (1 ≤ result) × (result ≤ MOST_ENTRIES + 1) }
    {
        self.fields.phi.start()
    }

    /// After how many heaps they repeat, or 0 where they don't.
    pub fn period(&self) -> u64
        ensures value { result ≡ self.now.period }
        ensures range { result ≤ MOST_ENTRIES }
    {
        self.fields.phi.period()
    }

    /// The last heap of a partial certificate, or 0 of a full one.
    pub fn heaps(&self) -> u64
        ensures value { result ≡ kind_of self.now }
        ensures range { result ≤ MOST_ENTRIES }
    {
        self.fields.phi.heaps()
    }

    /// The element of each heap of which the certificate speaks.
    pub fn phi(&self) -> &Phi<A>
        ensures { result.now ≡ pretending_of self.now }
    {
        &self.fields.phi
    }

    /// The elements of the P-portion, rising.
    pub fn portion(&self) -> &[u16]
        ensures { result.now ≡ self.now.portion }
    {
        &self.fields.portion
    }

    /// The keys of the elements from 1 on.
    pub fn words(&self) -> &[Key]
        ensures { result.now ≡ self.now.words }
    {
        &self.fields.words
    }

    /// The rows of the table, one behind the other: row x has the products of x with 0, 1, and so
    /// on.
    pub fn rows(&self) -> &[u16]
        ensures { result.now ≡ concat self.now.rows }
    {
        &self.fields.rows
    }

    /// For the pairs (0,1), (0,2), .., (1,2), .. the least element that takes just one of the two
    /// into the portion.
    pub fn apart(&self) -> &[u16]
        ensures { result.now ≡ self.now.apart }
    {
        &self.fields.apart
    }
}

/// A text can say a certificate, and so each of its numbers lies in its range.
pub fn in_ranges<A: Allocator>(cert: &Cert<A>)
    ensures ranges { InRanges cert.now }
    ensures writable { IsWritable cert.now }
{
    let _ = &cert.fields;
}
