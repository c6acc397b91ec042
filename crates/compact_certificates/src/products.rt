//! Rows of a table that lie one behind the other, and a row of products behind them.
ghost use Rattle.std.specs.Prelude.{◌≡◌, ◌+◌, ◌*◌, ◌≤◌, ◌<◌, ◌++◌, ◌∷◌, [], ℕ, List, All, OnOk, OnErr, length, map, take, slice_index, slice_index_or, vec_capacity};
ghost use Rattle.std.specs.List.{concat};
ghost use Rattle.compact_certificates.specs.Rows.{row_by, rows_by};
ghost use Rattle.compact_certificates.specs.Flat.{product_in};

use std::alloc::{AllocError, Allocator};

/// Puts the row of the product of `x` and `y` behind the rows: row `x`, read at each entry of row
/// `y`. The rows have `order` entries each.
///
/// After want of memory the rows are as they were.
pub fn push_product<A: Allocator>(
    rows: &mut Vec<u16, A>,
    order: u16,
    x: u16,
    y: u16,
) -> Result<(), AllocError>
    requires x_there { x * order + order ≤ length rows.old.items }
    requires y_there { y * order + order ≤ length rows.old.items }
    requires below { All (λ z. z < order) rows.old.items }
    ensures ok { OnOk result (rows.new.items
        ≡ rows.old.items ++ product_in order rows.old.items x y) }
    ensures err { OnErr result (rows.new.items ≡ rows.old.items) }
    // Memory is wanting only where a growth was refused.
    ensures full { OnErr result (vec_capacity rows.old < length rows.old.items + order) }
{
    let order = order as usize;
    let known = rows.len();
    let start = y as usize * order;
    rows.extend_from_within(start..start + order)?;
    let (known, made) = rows.split_at_mut(known);
    let start = x as usize * order;
    read_at(made, &known[start..start + order]);
    Ok(())
}

/// Each number becomes the row's entry at it.
fn read_at(numbers: &mut [u16], row: &[u16])
    requires { All (λ z. z < length row.now) numbers.old }
    ensures { numbers.new ≡ map (slice_index row.now) numbers.old }
{
    for i in 0..numbers.len() {
        numbers[i] = row[numbers[i] as usize];
    }
}

/// Rows that lie one behind the other do so with the row of a key's product behind them, and so the
/// rows by all keys are made key by key.
pub fn products_lie_behind()
    ensures behind { (order : ℕ) (phi : ℕ → ℕ) (rows : List (List ℕ)) (key : ℕ × ℕ)
        → All (λ row. length row ≡ order) rows
        → key.0 < length rows
        → phi key.1 < length rows
        → concat rows ++ product_in order (concat rows) key.0 (phi key.1)
        ≡ concat (rows ++ row_by phi rows key ∷ []) }
    ensures turn { (phi : ℕ → ℕ) (rows : List (List ℕ)) (keys : List (ℕ × ℕ)) (i : ℕ)
        → i < length keys
        → rows_by phi (take (i + 1) keys) rows
        ≡ rows_by phi (take i keys) rows
        ++ row_by phi (rows_by phi (take i keys) rows) (slice_index_or keys i (0, 0)) ∷ [] }
{}
