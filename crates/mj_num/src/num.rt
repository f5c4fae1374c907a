// A number, and the arithmetic.

ghost use Rattle.std.specs.Prelude.{◌≡◌, neg_ℤ, int_lt, IfOk, IfSome, Ok};
ghost use Rattle.mj_num.specs.Number.{ranged, reading, canonic_text, is_zero, number_of_truth, IsInRange, IsUpTo, sum_of, difference_of, product_of};
ghost use Rattle.mj_num.specs.Number.{quotient_of, remainder_of, exact_quotient_of};

use crate::digits::magnitude;
use mj_text::{Digits, Fault, Text};
use std::alloc::Global;
use std::marker::Model;

/// The greatest magnitude of a number.
const GREATEST: i64 = 999_999_999_999_999_999;

/// A whole number of magnitude at most 10^18 - 1.
#[derive(Clone, Copy, PartialEq, Eq, PartialOrd, Ord, Debug)]
pub struct Num {
    value: i64,
}

impl Model for Num {
    ghost use Rattle.std.specs.Prelude.{ℤ};
    ghost use Rattle.mj_num.specs.Number.{IsInRange};

    ghost Value = { ℤ };

    ghost view = { λ n. n.value };

    ghost invariant = { λ n. IsInRange n.value };

    ghost inverse = { λ z. record { value = z } };
}

impl Num {
    /// The number of this value. One out of range is `RANGE`.
    pub fn new(value: i64) -> Result<Num, Fault>
        ensures { result ≡ ranged value }
    {
        if (-GREATEST..=GREATEST).contains(&value) {
            Ok(Num { value })
        } else {
            Err(Fault::Range)
        }
    }

    /// A truth value as a number.
    pub fn from_truth(truth: bool) -> Num
        ensures { result ≡ number_of_truth truth }
    {
        Num {
            value: i64::from(truth),
        }
    }

    /// What the bytes of a text count as where a number is wanted.
    pub fn read_bytes(bytes: &[u8]) -> Result<Num, Fault>
        ensures { result ≡ reading bytes.now }
    {
        let mut rest = bytes;
        let mut negative = false;
        while let [sign @ (b'+' | b'-'), tail @ ..] = rest {
            negative ^= *sign == b'-';
            rest = tail;
        }
        let magnitude = magnitude(rest).ok_or(Fault::Range)? as i64;
        Ok(Num {
            value: if negative { -magnitude } else { magnitude },
        })
    }

    /// What a text counts as where a number is wanted.
    pub fn read(text: &Text) -> Result<Num, Fault>
        ensures { result ≡ reading text.now }
    {
        match text.number() {
            Some(value) => Ok(Num { value }),
            None => Num::read_spelled(text),
        }
    }

    // What a text that isn't kept as a number counts as. It lies apart, so that the room of a spelling isn't cleared where none is needed.
    #[inline(never)]
    fn read_spelled(text: &Text) -> Result<Num, Fault>
        ensures { result ≡ reading text.now }
    {
        Num::read_bytes(text.bytes(&mut Digits::new()))
    }

    /// What a text that is kept as a number counts as. `None` says nothing: such a text counts as what [`Num::read`] says.
    pub fn at_hand(text: &Text) -> Option<Num>
        ensures reads { IfSome result (λ n. reading text.now ≡ Ok n) }
        ensures spelled { IfSome result (λ n. text.now ≡ canonic_text n) }
    {
        match text.number() {
            Some(value) => Some(Num { value }),
            None => None,
        }
    }

    /// Its spelling. It takes no memory.
    pub fn to_text(self, alloc: Global) -> Text
        ensures { result ≡ canonic_text self }
    {
        Text::from_number(alloc, self.value)
    }

    /// Its value.
    pub fn value(self) -> i64
        ensures value { result ≡ self }
        ensures limit { IsInRange self }
    {
        self.value
    }

    /// Whether it is 0, which as a truth value is false.
    pub fn is_zero(self) -> bool
        ensures { result ≡ is_zero self }
    {
        self.value == 0
    }

    /// Whether it is below the other.
    pub fn is_less(self, other: Num) -> bool
        ensures { result ≡ int_lt self other }
    {
        self.value < other.value
    }

    /// The number of the opposite sign.
    pub fn neg(self) -> Num
        ensures { result ≡ neg_ℤ self }
    {
        Num { value: -self.value }
    }

    /// The sum.
    pub fn add(self, other: Num) -> Result<Num, Fault>
        ensures { result ≡ sum_of self other }
    {
        Num::new(self.value + other.value)
    }

    /// The difference.
    pub fn sub(self, other: Num) -> Result<Num, Fault>
        ensures { result ≡ difference_of self other }
    {
        Num::new(self.value - other.value)
    }

    /// The product.
    pub fn mul(self, other: Num) -> Result<Num, Fault>
        ensures { result ≡ product_of self other }
    {
        match self.value.checked_mul(other.value) {
            Some(product) => Num::new(product),
            None => Err(Fault::Range),
        }
    }

    /// The quotient, rounded towards 0.
    pub fn quot(self, other: Num) -> Result<Num, Fault>
        ensures { result ≡ quotient_of self other }
    {
        if other.is_zero() {
            return Err(Fault::Divide);
        }
        Num::new(self.value / other.value)
    }

    /// What is left of `self` by the quotient that is rounded down: 0, or of the divisor's sign.
    pub fn rem(self, other: Num) -> Result<Num, Fault>
        ensures value { result ≡ remainder_of self other }
        ensures place { IfOk result (IsUpTo other) }
    {
        if other.is_zero() {
            return Err(Fault::Divide);
        }
        let left = self.value.rem_euclid(other.value);
        if other.value < 0 && left != 0 {
            Num::new(left + other.value)
        } else {
            Num::new(left)
        }
    }

    /// The quotient, where it is a whole number.
    pub fn exact(self, other: Num) -> Result<Num, Fault>
        ensures { result ≡ exact_quotient_of self other }
    {
        if self.rem(other)?.is_zero() {
            self.quot(other)
        } else {
            Err(Fault::Fraction)
        }
    }
}
