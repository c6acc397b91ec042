//! What stands between the rows of arrays of LaTeX.
ghost use Rattle.std.specs.Prelude.{◌≡◌, ◌≤◌, IfOk};
ghost use Rattle.std.specs.String.{string_bytes};
ghost use Rattle.descriptions.specs.Arrays.{before_row, columns, number, numbers, opening};

use std::alloc::{AllocError, Global};

/// How many rows stand in an array.
const ROWS: u64 = 24;

/// What stands behind the rows of an array.
pub const CLOSING: &str = "\n\\end{array}$}\n\\end{center}\n";

/// A column for each heap of a row.
fn columns(alloc: Global, many: u64) -> Result<String, AllocError>
    ensures { IfOk result (λ t. string_bytes t ≡ columns many) }
{
    let mut text = String::new(alloc);
    for _k in 0..many {
        text.push_str("c")?;
    }
    Ok(text)
}

fn number(alloc: Global, column: u64) -> Result<String, AllocError>
    ensures { IfOk result (λ t. string_bytes t ≡ number column) }
{
    let text = format!(in alloc; "&{column}")?;
    Ok(text)
}

/// The numbers of the columns.
fn numbers(alloc: Global, many: u64) -> Result<String, AllocError>
    requires { many ≤ 16 }
    ensures { IfOk result (λ t. string_bytes t ≡ numbers many) }
{
    let mut text = String::new(alloc);
    for k in 0..many {
        let more = number(alloc, k + 1)?;
        text.push_str(more.as_str())?;
    }
    Ok(text)
}

/// What stands before the rows of an array.
fn opening(alloc: Global, many: u64) -> Result<String, AllocError>
    requires { many ≤ 16 }
    ensures { IfOk result (λ t. string_bytes t ≡ opening many) }
{
    let columns = columns(alloc, many)?;
    let numbers = numbers(alloc, many)?;
    let text = format!(in alloc;
        "\\begin{{center}}\n\\makebox[0pt]{{$\\begin{{array}}{{r|{columns}}}\n{numbers}\\\\\\hline\n"
    )?;
    Ok(text)
}

/// What stands before row number k.
pub fn before_row(alloc: Global, many: u64, k: u64) -> Result<String, AllocError>
    requires { many ≤ 16 }
    ensures { IfOk result (λ t. string_bytes t ≡ before_row many k) }
{
    if k == 0 {
        return opening(alloc, many);
    }
    if k % ROWS == 0 {
        let next = opening(alloc, many)?;
        let text = format!(in alloc; "{CLOSING}{next}")?;
        return Ok(text);
    }
    let text = format!(in alloc; "\\\\\n")?;
    Ok(text)
}
