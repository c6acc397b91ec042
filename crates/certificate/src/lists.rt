//! The lines before those of the rows.
ghost use Rattle.std.specs.Prelude.{◌≡◌, ◌≤◌, ◌<◌, ◌+◌, IfOk};
ghost use Rattle.misere_theory.specs.declared.TheConstants.{LARGEST_ORDER};
ghost use Rattle.misere_theory.specs.Certificates.{format_of};
ghost use Rattle.monoid_table.specs.Pretending.{IsPretending};
ghost use Rattle.certificate.specs.Fields.{pretending_of, fields_of};
ghost use Rattle.certificate_lines.specs.Given.{Gives};
ghost use Rattle.certificate_text.specs.Reading.{lists_at};

use crate::fields::Fields;
use crate::format::format_by;
use crate::front::front_lines;
use certificate_lines::{Front, Key, Reader, TextFault, key_line, line, portion};
use monoid_table::Phi;
use std::alloc::{Allocator, Global};
use std::marker::Model;

/// What the lines before those of the rows hold.
#[derive(Drop)]
pub struct Lists<A: Allocator = Global> {
    pub front: Front,
    pub entries: Vec<u16, A>,
    pub portion: Vec<u16, A>,
    pub words: Vec<Key, A>,
}

impl<A: Allocator> Model for Lists<A> {
    ghost use Rattle.std.specs.Prelude.{[]};
    ghost use Rattle.misere_theory.specs.Certificates.{Certificate};

    ghost Value = { Certificate };

    ghost view = { λ l.
        record {
          code = l.front.code;
          order = l.front.order;
          start = l.front.start;
          period = l.front.period;
          phi = l.entries.items;
          portion = l.portion.items;
          words = l.words.items;
          rows = [];
          apart = [];
        } };
}

impl<A: Allocator> Lists<A> {
    /// The number of the format.
    pub fn format(&self) -> u16
        ensures { result ≡ format_of self.now }
    {
        let front = &self.front;
        format_by(&front.code, front.order, front.start, front.period)
    }

    /// The fields with these rows and separators.
    pub fn with_table(self, rows: Vec<u16, A>, apart: Vec<u16, A>) -> Fields<A>
        requires { IsPretending (pretending_of self) }
        ensures { result ≡ fields_of self rows.items apart.items }
    {
        let Lists {
            front,
            entries,
            portion,
            words,
        } = self;
        Fields {
            code: front.code,
            order: front.order,
            phi: Phi::new(front.start as u64, front.period as u64, entries),
            portion,
            words,
            rows,
            apart,
        }
    }
}

/// The lines up to that of the keys.
#[tactic(auto, unfolding(certificate_text::specs::Reading::lists_at))]
pub fn list_lines<A: Allocator + Copy>(
    alloc: A,
    reader: &mut Reader<'_>,
) -> Result<Lists<A>, TextFault>
    ensures read { Gives (λ x. (x, reader.new)) result (lists_at reader.old) }
    ensures order { IfOk result (λ x. (2 ≤ x.order) × (x.order ≤ LARGEST_ORDER)) }
{
    let front = front_lines(reader)?;
    let heaps = front.start + front.period;
    let entries = line(alloc, reader, b"phi", heaps as usize - 1, front.order)?;
    let portion = portion(alloc, reader, front.order)?;
    let words = key_line(alloc, reader, front.order, heaps)?;
    Ok(Lists {
        front,
        entries,
        portion,
        words,
    })
}
