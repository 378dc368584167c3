// Reads a number field, and its value as a whole count of a unit.
ghost use Rattle.std.specs.Prelude.{◌≡◌, ◌-◌, ◌^◌, Option, pos};
ghost use Rattle.opf.specs.Numbers.{unsigned_number, number_of, whole_count, natural_in, signed_in};
ghost use Rattle.opf.specs.Counts.{at_most};
ghost use Rattle.opf.specs.declared.number.Number.{Number};
ghost use Rattle.opf.specs.declared.number.Quantity.{Quantity};

use crate::number::{Number, Quantity};
use text::digits::digits;

impl Number {
    // The number that a field prints, if it has the form.
    pub(crate) fn read(field: &[u8]) -> Option<Number>
        ensures { result ≡ number_of field.now }
    {
        match field {
            [b'-', rest @ ..] => Number::unsigned(rest, true),
            _ => Number::unsigned(field, false),
        }
    }

    // A point, five digits, E, a sign and two digits.
    fn unsigned(t: &[u8], negative: bool) -> Option<Number>
        ensures { result ≡ unsigned_number negative t.now }
    {
        // The form has fixed places, so they are named.
        if t.len() != 10 || t[0] != b'.' || t[6] != b'E' {
            return None;
        }
        let value = digits(&t[1..6])? as u32;
        let power = digits(&t[8..])? as i8;
        let exponent = match t[7] {
            b'+' => power,
            b'-' => -power,
            _ => return None,
        };
        Some(Number {
            negative,
            digits: value,
            exponent,
        })
    }

    // How many units of ten to the -`decimals` it is, but for its sign, where that is whole.
    fn units(self, decimals: u8) -> Option<u64>
        ensures { result ≡ at_most (2 ^ 64 - 1) (whole_count decimals self) }
    {
        let digits = u64::from(self.digits);
        if digits == 0 {
            return Some(0);
        }
        let shift = i32::from(decimals) + i32::from(self.exponent) - 5;
        let power = 10u64.checked_pow(shift.unsigned_abs())?;
        if shift >= 0 {
            return digits.checked_mul(power);
        }
        if digits % power != 0 {
            return None;
        }
        Some(digits / power)
    }
}

// A kind of count, of either sign or of none.
pub(crate) trait Counted: Copy {
    ghost reads: { Quantity Self → Number → Option Self };

    // What stands for a count that is not read.
    ghost none: { Self };

    // What a number counts of a quantity, within its range.
    fn counted(x: Number, q: Quantity<Self>) -> Option<Self>
        ensures { result ≡ reads q x };
}

// Only zero may have a minus.
impl Counted for u64 {
    ghost reads = { natural_in };

    ghost none = { 0 };

    fn counted(x: Number, q: Quantity<u64>) -> Option<u64>
        ensures { result ≡ natural_in q x }
    {
        let v = x.units(q.decimals)?;
        if v < q.low || v > q.high {
            return None;
        }
        if v != 0 && x.negative {
            return None;
        }
        Some(v)
    }
}

impl Counted for i64 {
    ghost reads = { signed_in };

    ghost none = { pos 0 };

    fn counted(x: Number, q: Quantity<i64>) -> Option<i64>
        ensures { result ≡ signed_in q x }
    {
        let v = i128::from(x.units(q.decimals)?);
        let z = if x.negative { -v } else { v };
        if z < i128::from(q.low) || z > i128::from(q.high) {
            return None;
        }
        Some(z as i64)
    }
}
