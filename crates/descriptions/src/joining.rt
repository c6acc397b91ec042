//! Texts one behind the other.
ghost use Rattle.std.specs.Prelude.{◌≡◌, ◌++◌, IfOk};
ghost use Rattle.std.specs.String.{string_bytes};

use std::alloc::{AllocError, Global};

/// Two texts, one behind the other.
pub fn both(alloc: Global, first: &str, second: &str) -> Result<String, AllocError>
    ensures { IfOk result (λ t. string_bytes t ≡ first.now ++ second.now) }
{
    let text = format!(in alloc; "{first}{second}")?;
    Ok(text)
}

/// Three texts, one behind the other.
pub fn all_three(
    alloc: Global,
    first: &str,
    second: &str,
    third: &str,
) -> Result<String, AllocError>
    ensures { IfOk result (λ t. string_bytes t ≡ first.now ++ second.now ++ third.now) }
{
    let text = format!(in alloc; "{first}{second}{third}")?;
    Ok(text)
}
