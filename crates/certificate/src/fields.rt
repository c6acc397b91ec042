//! The lines of a certificate, apart.
use certificate_lines::Key;
use monoid_table::Phi;
use octal_code::Code;
use std::alloc::{Allocator, Global};
use std::marker::Model;

/// What the lines of a certificate hold, apart from one another. The rows lie one behind the other.
#[derive(Drop)]
pub struct Fields<A: Allocator = Global> {
    pub code: Code,
    pub order: u16,
    pub phi: Phi<A>,
    pub portion: Vec<u16, A>,
    pub words: Vec<Key, A>,
    pub rows: Vec<u16, A>,
    pub apart: Vec<u16, A>,
}

impl<A: Allocator> Model for Fields<A> {
    ghost use Rattle.certificate.specs.Fields.{Fields};

    ghost Value = { Fields };

    ghost view = { λ p.
        record {
          code = p.code;
          order = p.order;
          phi = p.phi;
          portion = p.portion.items;
          words = p.words.items;
          rows = p.rows.items;
          apart = p.apart.items;
        } };
}
