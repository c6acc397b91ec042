//! Reading and writing where nothing is promised: outside a list there is 0, and a write changes nothing.

/// Number `x` of the list.
pub(crate) fn read(list: &[u32], x: usize) -> usize {
    match list.get(x) {
        Some(v) => *v as usize,
        None => 0,
    }
}

/// Weight `x` of the list.
pub(crate) fn weigh(list: &[u64], x: usize) -> u64 {
    match list.get(x) {
        Some(v) => *v,
        None => 0,
    }
}

/// Mark `x` of the list.
pub(crate) fn mark(list: &[bool], x: usize) -> bool {
    match list.get(x) {
        Some(v) => *v,
        None => false,
    }
}

/// The number, or the largest there is.
pub(crate) fn small(x: usize) -> u32 {
    x.min(u32::MAX as usize) as u32
}

/// Writes number `x` of the list.
pub(crate) fn write(list: &mut [u32], x: usize, v: usize) {
    if x < list.len() {
        list[x] = small(v);
    }
}

/// Entry `y` of row `x`.
pub(crate) fn at(width: usize, x: usize, y: usize) -> usize {
    x.wrapping_mul(width).wrapping_add(y)
}
