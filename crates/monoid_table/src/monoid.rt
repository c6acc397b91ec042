//! Commutative monoids, and products over them.
ghost use Rattle.std.specs.Prelude.{◌≡◌, All, List};
ghost use Rattle.std.specs.List.Sorted.{IsPermutation};
ghost use Rattle.monoid_table.specs.Laws.{CommMonoidLaws, product_of, power_of};

/// A commutative monoid, as a value whose elements are of another type.
pub trait CommMonoid {
    type Element: Drop;

    /// Holds of every value of the type; the laws stand on it.
    ghost is_lawful: { Self → Type 0 };

    /// Holds of its elements.
    ghost is_in: { Self → Self.Element → Type 0 };

    ghost identity: { Self → Self.Element };

    ghost multiply: { Self → Self.Element → Self.Element → Self.Element };

    /// The identity.
    fn one(&self) -> Self::Element
        ensures value { result ≡ identity self.now }
        ensures lawful { is_lawful self.now };

    /// The product of two elements.
    fn times(&self, x: &Self::Element, y: &Self::Element) -> Self::Element
        requires x_in { is_in self.now x.now }
        requires y_in { is_in self.now y.now }
        ensures { result ≡ multiply self.now x.now y.now };

    ghost laws: { (m : Self) → is_lawful m → CommMonoidLaws (is_in m) (identity m) (multiply m) };
}

/// The product of the elements, which doesn't depend on their order.
pub fn product<M: CommMonoid>(monoid: &M, elements: &[M::Element]) -> M::Element
    requires { All (M.is_in monoid.now) elements.now }
    ensures value { result ≡ product_of (M.identity monoid.now) (M.multiply monoid.now)
        elements.now }
    ensures any_order { (others : List M.Element) → IsPermutation elements.now others
        → result ≡ product_of (M.identity monoid.now) (M.multiply monoid.now) others }
    ensures within { M.is_in monoid.now result }
{
    let mut all = monoid.one();
    for x in elements {
        all = monoid.times(&all, x);
    }
    all
}

/// The product of `count` times the element, by squares: for each binary digit of the count two
/// products at most.
pub fn power<M: CommMonoid>(monoid: &M, x: &M::Element, count: u64) -> M::Element
    requires { M.is_in monoid.now x.now }
    ensures value { result ≡ power_of (M.identity monoid.now) (M.multiply monoid.now) x.now count }
    ensures within { M.is_in monoid.now result }
{
    let mut all = monoid.one();
    let mut square = monoid.times(&all, x);
    let mut left = count;
    while left > 0 {
        if left % 2 == 1 {
            all = monoid.times(&all, &square);
        }
        square = monoid.times(&square, &square);
        left /= 2;
    }
    all
}
