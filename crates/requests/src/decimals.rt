//! Numbers in decimal.
ghost use Rattle.std.specs.Prelude.{◌≡◌, ◌≢◌, ◌≤◌, ◌<◌, ◌^◌, ℕ, IfNone, IfSome, decimal};

/// The number that the text spells in decimal without leading zeros.
fn spelled_number(text: &str) -> Option<u64>
    ensures some { IfSome result (λ n. text.now ≡ decimal n) }
    ensures none { IfNone result ((n : ℕ) → n < 2 ^ 64 → text.now ≢ decimal n) }
{
    if text.starts_with('+') {
        return None;
    }
    if text.starts_with('0') && text.len() > 1 {
        return None;
    }
    text.parse::<u64>().ok()
}

/// The number from `least` to `most`, the ends included, that the text spells in decimal without
/// leading zeros, or `None` where it spells none of these. It takes no memory.
pub fn number_between(least: u64, most: u64, text: &str) -> Option<u64>
    ensures some { IfSome result (λ n. (text.now ≡ decimal n) × (least ≤ n) × (n ≤ most)) }
    ensures none { IfNone result ((n : ℕ) → least ≤ n → n ≤ most → text.now ≢ decimal n) }
{
    let number = spelled_number(text)?;
    if least <= number && number <= most {
        Some(number)
    } else {
        None
    }
}
