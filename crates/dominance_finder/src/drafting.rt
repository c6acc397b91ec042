//! The text of a claim.
use crate::labels::{Label, Labels, Repeat};
use octal_code::Code;
use quotient_search::Halt;
use std::alloc::Allocator;

/// A line of numbers.
#[derive(Clone, Copy)]
enum Line {
    Odd,
    Weights,
    Leads,
}

impl Line {
    fn name(self) -> &'static str {
        match self {
            Line::Odd => "\nodd",
            Line::Weights => "\nweights",
            Line::Leads => "\nleads",
        }
    }

    /// A heap's number in it.
    fn number(self, label: Label) -> usize {
        match self {
            Line::Odd => usize::from(label.is_odd),
            Line::Weights => label.weight,
            Line::Leads => label.lead,
        }
    }
}

/// The text by which labels repeat so.
pub fn drafted<A: Allocator + Copy>(
    alloc: A,
    code: &Code,
    labels: &Labels<A>,
    repeat: Repeat,
) -> Result<Vec<u8, A>, Halt> {
    let code = code.text(alloc)?;
    let Repeat {
        start,
        period,
        rise,
    } = repeat;
    let mut text = format!(in alloc;
        "mqw 1\ncode {code}\nstart {start}\nperiod {period}\nrise {rise}"
    )?.into_bytes();
    for line in [Line::Odd, Line::Weights, Line::Leads].iter() {
        text.extend_from_slice(line.name().as_bytes())?;
        for label in labels.items.iter().take(repeat.last()) {
            let number = line.number(*label);
            let word = format!(in alloc; " {number}")?;
            text.extend_from_slice(word.as_bytes())?;
        }
    }
    text.extend_from_slice(b"\nend\n")?;
    Ok(text)
}
