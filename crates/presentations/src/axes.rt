//! The box of exponent vectors: below the power of each letter that comes back to a smaller one.
ghost use Rattle.std.specs.Prelude.{◌≡◌, ◌+◌, ◌*◌, ◌^◌, ◌<◌, length, All};
ghost use Rattle.presentations.specs.declared.TheConstants.{LETTERS};
ghost use Rattle.presentations.specs.Boxes.{after, size_of, place_of, next_of, AreAxes};
ghost use Rattle.presentations.specs.Merging.{letters_in};
ghost use Rattle.presentations.specs.Words.{vector_on};

use crate::Word;

/// A letter in the box: its power `most` is its power `back`, which is smaller.
#[derive(Clone, Copy)]
pub struct Axis {
    pub letter: u8,
    pub most: usize,
    pub back: usize,
    pub stride: usize,
}

impl Axis {
    /// The exponent after this one.
    fn after(&self, exponent: usize) -> usize
        requires { exponent < self.now.most }
        ensures { result ≡ after self.now exponent }
    {
        if exponent + 1 < self.most {
            exponent + 1
        } else {
            self.back
        }
    }
}

/// The place with letter `i` once more.
pub fn next(axes: &[Axis], i: usize, at: usize) -> usize
    requires axes { AreAxes 1 axes.now }
    requires small { size_of axes.now < 2 ^ 32 }
    requires i_in { i < length axes.now }
    requires at_in { at < size_of axes.now }
    ensures value { result ≡ next_of axes.now i at }
    ensures within { result < size_of axes.now }
{
    let axis = axes[i];
    let exponent = at / axis.stride % axis.most;
    at - exponent * axis.stride + axis.after(exponent) * axis.stride
}

/// The place of the word's vector.
pub fn place(axes: &[Axis], word: &Word) -> usize
    requires axes { AreAxes 1 axes.now }
    requires small { size_of axes.now < 2 ^ 32 }
    requires letters { All (λ a. a.letter < LETTERS) axes.now }
    ensures value { result ≡ place_of axes.now (vector_on (letters_in axes.now) word.now) }
    ensures within { result < size_of axes.now }
{
    let mut at = 0;
    for i in 0..axes.len() {
        let count = word[axes[i].letter as usize];
        for _k in 0..count {
            at = next(axes, i, at);
        }
    }
    at
}
