//! Exact arithmetic of integers: floor division, greatest common divisors, multiples, and the theory of dot products.
//!
//! The functions are small; what other crates mostly use are the definitions in `specs/` and the public lemmas in `proofs/`.

ghost use Rattle.std.specs.Prelude.{◌≡◌, ℕ, pos, ◌<◌, ◌≤ℤ◌, ◌<ℤ◌, ◌+ℤ◌, ◌-ℤ◌, ◌*ℤ◌, neg_ℤ, unsigned_abs, IsTrue, ◌↔◌, ℤ, List};
ghost use Rattle.std.specs.Int.{int_div_euclid, int_rem_euclid, IsGcd, ◌∣◌};
ghost use Rattle.ac_base.specs.Gcd.{gcd, content, DividesEach};
ghost use Rattle.ac_base.specs.Multiple.{IsMultiple};
ghost use Rattle.ac_base.specs.Dot.{dot, floored};

/// The greatest common divisor of two numbers, 0 where both are 0 (Euclid's algorithm).
#[tactic(auto, using(crate::proofs::Divisors::euclid))]
pub fn greatest_common_divisor(a: u128, b: u128) -> u128
    ensures value { result ≡ gcd a b }
    ensures greatest { IsGcd a b result }
{
    let mut x = a;
    let mut y = b;
    while y != 0 {
        let rest = x % y;
        x = y;
        y = rest;
    }
    x
}

/// The greatest common divisor of the absolute values of a list, 0 where all are 0.
#[tactic(auto, using(crate::proofs::Contents::content_steps))]
pub fn content(numbers: &[i128]) -> u128
    ensures value { result ≡ content numbers.now }
    ensures divides { DividesEach result numbers.now }
    ensures greatest { (d : ℕ) → DividesEach d numbers.now → d ∣ result }
{
    let mut divisor: u128 = 0;
    for number in numbers {
        divisor = greatest_common_divisor(divisor, number.unsigned_abs());
    }
    divisor
}

/// Whether a number is a multiple of a modulus, whatever their signs; of 0 only 0 is.
pub fn is_multiple(number: i128, modulus: i128) -> bool
    ensures { IsTrue result ↔ IsMultiple modulus number }
{
    let divisor = modulus.unsigned_abs();
    let size = number.unsigned_abs();
    if divisor == 0 {
        size == 0
    } else {
        size % divisor == 0
    }
}

/// The quotient by a positive number, rounded down.
pub fn floor_quotient(number: i128, divisor: i128) -> i128
    requires { pos 1 ≤ℤ divisor }
    ensures value { result ≡ int_div_euclid number divisor }
    ensures low { (divisor *ℤ result) ≤ℤ number }
    ensures high { number <ℤ (divisor *ℤ result +ℤ divisor) }
{
    number.div_euclid(divisor)
}

/// The remainder of the division by a positive number that rounds down: it is never negative.
pub fn floor_remainder(number: i128, divisor: i128) -> i128
    requires { pos 1 ≤ℤ divisor }
    ensures value { result ≡ int_rem_euclid number divisor }
    ensures low { pos 0 ≤ℤ result }
    ensures high { result <ℤ divisor }
    ensures split { number ≡ divisor *ℤ int_div_euclid number divisor +ℤ result }
{
    number.rem_euclid(divisor)
}

/// The cut rule (R. Gomory, 1958): where a positive number divides all coefficients of `coefs x + constant >= 0`,
/// it divides out and the constant is rounded down, and no integer point is lost or won.
pub fn cut_rule(coefs: &[i128], constant: i128, divisor: i128)
    requires positive { pos 1 ≤ℤ divisor }
    requires divides { DividesEach (unsigned_abs divisor) coefs.now }
    ensures { (point : List ℤ) → (pos 0 ≤ℤ (dot coefs.now point +ℤ constant)) ↔ (pos 0 ≤ℤ (dot (floored divisor coefs.now) point +ℤ int_div_euclid constant divisor)) }
{}

/// The quotient by a positive number, rounded down, is the greatest integer whose product with it is at most the number, and
/// the only one whose product leaves a rest below it. The quotient rounded up is that of a number which is greater by the
/// divisor less 1.
pub fn rounded_quotients()
    ensures greatest { (a d q : ℤ) → pos 1 ≤ℤ d → (d *ℤ q) ≤ℤ a → q ≤ℤ int_div_euclid a d }
    ensures unique { (a d q : ℤ) → pos 1 ≤ℤ d → (d *ℤ q) ≤ℤ a → a <ℤ (d *ℤ q +ℤ d) → q ≡ int_div_euclid a d }
    ensures up { (a d : ℤ) → pos 1 ≤ℤ d → neg_ℤ (int_div_euclid (neg_ℤ a) d) ≡ int_div_euclid (a +ℤ (d -ℤ pos 1)) d }
{}
