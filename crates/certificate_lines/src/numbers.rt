//! Fixed bytes and decimal numbers.
ghost use Rattle.std.specs.Prelude.{◌≡◌, ◌<◌, MatchOption, None, Some};
ghost use Rattle.certificate_text.specs.Reading.{fixed_at, is_digit, more_at, number_at};

/// What stands behind `text`, if the bytes begin with it.
#[tactic(auto, unfolding(certificate_text::specs::Reading::fixed_at))]
pub fn behind<'a>(bytes: &'a [u8], text: &[u8]) -> Option<&'a [u8]>
    ensures { MatchOption result (fixed_at text.now bytes.now ≡ None)
        (λ rest. fixed_at text.now bytes.now ≡ Some rest.now) }
{
    match text {
        [] => Some(bytes),
        [t, ts @ ..] => match bytes {
            [b, rest @ ..] if *t == *b => behind(rest, ts),
            _ => None,
        },
    }
}

fn is_digit(b: u8) -> bool
    ensures { result ≡ is_digit b }
{
    b >= b'0' && b <= b'9'
}

/// The further digits of a number, as long as it stays below the limit.
#[tactic(auto, unfolding(certificate_text::specs::Reading::more_at))]
fn more(mut bytes: &[u8], mut n: u16, limit: u16) -> Option<(u16, &[u8])>
    requires { n < limit }
    ensures { MatchOption result (more_at limit n bytes.now ≡ None)
        (λ x. (more_at limit n bytes.now ≡ Some (x.0, x.1.now)) × (x.0 < limit)) }
{
    while let [b, rest @ ..] = bytes
        && is_digit(*b)
    {
        let longer = 10 * n as u32 + (*b - b'0') as u32;
        if longer >= limit as u32 {
            return None;
        }
        n = longer as u16;
        bytes = rest;
    }
    Some((n, bytes))
}

/// A number below the limit, without leading zeros.
#[tactic(auto, unfolding(certificate_text::specs::Reading::number_at))]
pub fn number_in_front(bytes: &[u8], limit: u16) -> Option<(u16, &[u8])>
    requires { 0 < limit }
    ensures { MatchOption result (number_at limit bytes.now ≡ None)
        (λ x. (number_at limit bytes.now ≡ Some (x.0, x.1.now)) × (x.0 < limit)) }
{
    match bytes {
        [] => None,
        [b'0', rest @ ..] => Some((0, rest)),
        [b, rest @ ..] => {
            if !is_digit(*b) {
                return None;
            }
            let first = (*b - b'0') as u16;
            if first < limit {
                more(rest, first, limit)
            } else {
                None
            }
        }
    }
}
