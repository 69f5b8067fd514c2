//! Numbers as the language has them.

ghost use Rattle.std.specs.Prelude.{◌≡◌, ◌↔◌, ◌^◌, ◌<◌, true, refl, Some, IsNone, IfSome, unsigned_abs};
ghost use Rattle.std.specs.Cmp.{int_eq_equiv, partial_equiv_from_equiv, signed_po, int_cmp_total};
ghost use Rattle.std.specs.Ordering.{int_cmp, int_eq};
ghost use Rattle.st_num.specs.Number.{signed, below_zero, IsNumber};

use crate::arithmetic::compare;
use std::cmp::Ordering;
use std::marker::Model;

/// A whole number with a magnitude below 2^128. There is one zero, which is not negative.
#[derive(Clone, Copy, Debug)]
pub struct Num {
    negative: bool,
    magnitude: u128,
}

impl Model for Num {
    ghost use Rattle.std.specs.Prelude.{◌≡◌, ℤ, true, ◌<◌, unsigned_abs};
    ghost use Rattle.std.specs.Coded.{coded_ℤ};
    ghost use Rattle.st_num.specs.Number.{signed, below_zero};
    ghost use Rattle.st_num.specs.inner.SignAndMagnitude.{fields_back};

    ghost Value = { ℤ };

    ghost coded = { coded_ℤ };

    ghost view = { λ n. signed n.negative n.magnitude };

    ghost invariant = { λ n. n.negative ≡ true → 0 < n.magnitude };

    ghost inverse = { λ z. record { negative = below_zero z; magnitude = unsigned_abs z } };

    ghost inverse_ok = { fields_back };
}

impl Num {
    /// The number of this sign and magnitude, where that is no negative zero.
    pub fn new(negative: bool, magnitude: u128) -> Option<Num>
        ensures none { IsNone result ↔ ((negative ≡ true) × (magnitude ≡ 0)) }
        ensures some { IfSome result (λ n. n ≡ signed negative magnitude) }
    {
        if negative && magnitude == 0 {
            return None;
        }
        Some(Num {
            negative,
            magnitude,
        })
    }

    /// The number of this sign and magnitude; zero has no sign.
    pub(crate) fn signed(negative: bool, magnitude: u128) -> Num
        ensures { result ≡ signed negative magnitude }
    {
        Num {
            negative: negative && magnitude != 0,
            magnitude,
        }
    }

    pub fn is_negative(&self) -> bool
        ensures { result ≡ below_zero self.now }
    {
        self.negative
    }

    /// The size without the sign.
    pub fn magnitude(&self) -> u128
        ensures value { result ≡ unsigned_abs self.now }
        ensures in_range { IsNumber self.now }
    {
        self.magnitude
    }
}

impl PartialEq for Num {
    ghost eq = { int_eq };

    ghost laws = { partial_equiv_from_equiv int_eq_equiv };

    fn eq(&self, other: &Num) -> bool {
        self.negative == other.negative && self.magnitude == other.magnitude
    }
}

impl Eq for Num {
    ghost laws = { int_eq_equiv };
}

impl PartialOrd for Num {
    ghost partial_cmp = { λ x y. Some (int_cmp x y) };

    ghost laws = { signed_po };

    fn partial_cmp(&self, other: &Num) -> Option<Ordering> {
        Some(compare(*self, *other))
    }
}

impl Ord for Num {
    ghost cmp = { int_cmp };

    ghost total = { int_cmp_total };

    ghost matches_partial_cmp = { λ x y. refl };

    ghost matches_eq = { λ x y. refl };

    fn cmp(&self, other: &Num) -> Ordering {
        compare(*self, *other)
    }
}
