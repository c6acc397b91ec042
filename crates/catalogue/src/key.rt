//! Codes and kinds as keys.
ghost use Rattle.misere_theory.specs.Games.{IsCode};
ghost use Rattle.catalogue.specs.Keys.{IsCodeAndKind};

use octal_code::Code;

/// The most digits of a code.
const DIGITS: usize = 17;

/// The digits of a code with zeros behind them, and then the kind. Two codes and kinds are the same
/// where these are.
pub(crate) type CodeAndKind = [u64; DIGITS + 1];

/// The key of a code and a kind.
pub(crate) fn code_and_kind(code: &Code, heaps: u64) -> CodeAndKind
    ensures key { IsCodeAndKind result code.now heaps }
    ensures code { IsCode code.now }
{
    let _ = code.last();
    let mut digits = [heaps; DIGITS + 1];
    for j in 0..DIGITS {
        digits[j] = u64::from(code.digit(j as u64));
    }
    digits
}
