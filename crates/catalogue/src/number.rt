//! Numbers of JSON.
ghost use Rattle.std.specs.Prelude.{◌≡◌, ◌<◌, ◌==◌, length, slice_index, IsTrue, option_map, true, false};
ghost use Rattle.serde_json.specs.Find.{as_u64};
ghost use Rattle.serde_json.specs.Read.{number_of, number_from, float_of};

use fast_float::Numeral;

/// The whole number that the text of a JSON number writes: nothing where it is too large for a
/// float, `Some(None)` where it is another number, as one below zero, one with a point or one of
/// more than 64 bits.
pub(crate) fn whole(text: &str) -> Option<Option<u64>>
    ensures { result ≡ option_map as_u64 (number_of text.now) }
{
    let bytes = text.as_bytes();
    if has_minus(bytes) {
        below_zero(&Numeral::scan(&bytes[1..]))
    } else {
        above_zero(&Numeral::scan(bytes))
    }
}

fn has_minus(bytes: &[u8]) -> bool
    ensures value { result ≡ (slice_index bytes.now 0 == 45) }
    ensures some { IsTrue result → 0 < length bytes.now }
{
    !bytes.is_empty() && bytes[0] == b'-'
}

fn above_zero(numeral: &Numeral<'_>) -> Option<Option<u64>>
    ensures { result ≡ option_map as_u64 (number_from false numeral.now) }
{
    match numeral.to_u64() {
        Some(n) => Some(Some(n)),
        None => finite(false, numeral),
    }
}

fn below_zero(numeral: &Numeral<'_>) -> Option<Option<u64>>
    ensures { result ≡ option_map as_u64 (number_from true numeral.now) }
{
    match numeral.to_i64(true) {
        Some(n) if n < 0 => Some(None),
        _ => finite(true, numeral),
    }
}

fn finite(negative: bool, numeral: &Numeral<'_>) -> Option<Option<u64>>
    ensures { result ≡ option_map as_u64 (float_of negative numeral.now) }
{
    if numeral.to_float::<f64>(negative).is_finite() {
        Some(None)
    } else {
        None
    }
}
