//! Exact arithmetic: each call answers the number, or `Halt::Open` if it leaves `i128`.

use crate::halt::Halt;
use ac_base::greatest_common_divisor;

/// `x + y`.
pub fn sum(x: i128, y: i128) -> Result<i128, Halt> {
    x.checked_add(y).ok_or(Halt::Open)
}

/// `x - y`.
pub fn difference(x: i128, y: i128) -> Result<i128, Halt> {
    x.checked_sub(y).ok_or(Halt::Open)
}

/// `-x`.
pub fn opposite(x: i128) -> Result<i128, Halt> {
    x.checked_neg().ok_or(Halt::Open)
}

/// `x * y`, by a product in 64 bits where that serves.
pub fn product(x: i128, y: i128) -> Result<i128, Halt> {
    match short_product(x, y) {
        Some(short) => Ok(short),
        None => x.checked_mul(y).ok_or(Halt::Open),
    }
}

/// `x * y`, if both numbers and the product have 64 bits.
fn short_product(x: i128, y: i128) -> Option<i128> {
    let left = i64::try_from(x).ok()?;
    let right = i64::try_from(y).ok()?;
    Some(i128::from(left.checked_mul(right)?))
}

/// `x / y`, rounded down for a positive y.
pub fn floor(x: i128, y: i128) -> Result<i128, Halt> {
    if let (Ok(short), Ok(divisor)) = (i64::try_from(x), i64::try_from(y)) {
        return match short.checked_div_euclid(divisor) {
            Some(quotient) => Ok(i128::from(quotient)),
            None => Err(Halt::Open),
        };
    }
    x.checked_div_euclid(y).ok_or(Halt::Open)
}

/// The remainder of `x / y` that is not negative.
pub fn remainder(x: i128, y: i128) -> Result<i128, Halt> {
    if let (Ok(short), Ok(divisor)) = (i64::try_from(x), i64::try_from(y)) {
        return match short.checked_rem_euclid(divisor) {
            Some(rest) => Ok(i128::from(rest)),
            None => Err(Halt::Open),
        };
    }
    x.checked_rem_euclid(y).ok_or(Halt::Open)
}

/// Whether a number is 1 or -1.
pub fn is_unit(x: i128) -> bool {
    x == 1 || x == -1
}

/// The greatest common divisor, 0 if both numbers are 0.
pub fn common_divisor(x: i128, y: i128) -> Result<i128, Halt> {
    if is_unit(x) || is_unit(y) {
        return Ok(1);
    }
    let divisor = greatest_common_divisor(x.unsigned_abs(), y.unsigned_abs());
    i128::try_from(divisor).ok().ok_or(Halt::Open)
}
