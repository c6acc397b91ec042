//! Keys of elements.
use std::marker::Model;

/// Where an element above 0 comes from: it is the product of a smaller element and the element of a
/// heap.
#[derive(Clone, Copy)]
pub struct Key {
    pub element: u16,
    pub heap: u16,
}

impl Model for Key {
    ghost use Rattle.std.specs.Prelude.{ℕ};

    ghost Value = { ℕ × ℕ };

    ghost view = { λ k. (k.element, k.heap) };

    ghost inverse = { λ k. record { element = k.0; heap = k.1 } };
}
