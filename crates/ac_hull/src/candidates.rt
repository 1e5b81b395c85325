ghost use Rattle.std.specs.Prelude.{◌≡◌, ◌≤◌, ◌^◌, ◌++◌, ℤ, IfOk, unsigned_abs};
ghost use Rattle.std.specs.List.{flat_map};
ghost use Rattle.ac_forms.specs.ListMembers.{IsAmong};
ghost use Rattle.ac_hull.specs.SmallestIntegers.{AreFirst};
ghost use Rattle.ac_hull.specs.Thresholds.{beside, near, small_size, thresholds_at, threshold_candidates, modulus_at, modulus_candidates};

use crate::collected::{Collected, numbers_of};
use crate::first::first;
use ac_base::Items;
use ac_syntax::tree::Pair;
use std::alloc::{AllocError, Global};

/// How many thresholds a pair of programs has at most.
pub const MOST_THRESHOLDS: usize = 64;

/// How many moduli a pair of programs has at most.
pub const MOST_MODULI: usize = 8;

/// The thresholds of two programs. Candidates are k - 1, k, k + 1, -k - 1, -k and -k + 1 for k each of 0, 1, the
/// constants of all forms of both programs and of their context, the divisors, and the absolute values of the steps. Of
/// these the call gives the 64 of least absolute value, the least first, and a positive number before its opposite.
pub fn thresholds(alloc: Global, pair: &Pair) -> Result<Items<i128>, AllocError>
    ensures { IfOk result (AreFirst 64 (λ x. IsAmong x (threshold_candidates pair.now))) }
{
    let numbers = numbers_of(alloc, pair)?;
    let made = with_near(Items::new(alloc), 0)?;
    let made = with_near(made, 1)?;
    let candidates = with_thresholds(made, numbers.as_slice())?;
    first(alloc, MOST_THRESHOLDS, candidates.as_slice())
}

/// The moduli of two programs: the absolute values of all coefficients of the forms of both and of their context, of the
/// divisors and of the steps, as far as they are from 2 to 16; of these the 8 least, in rising order.
pub fn moduli(alloc: Global, pair: &Pair) -> Result<Items<i128>, AllocError>
    ensures { IfOk result (AreFirst 8 (λ m. IsAmong m (modulus_candidates pair.now))) }
{
    let numbers = numbers_of(alloc, pair)?;
    let candidates = with_moduli(Items::new(alloc), numbers.as_slice())?;
    first(alloc, MOST_MODULI, candidates.as_slice())
}

/// The list with a number, its opposite and the numbers beside both behind it.
#[tactic(auto, using(crate::proofs::Collecting::near_steps))]
fn with_near(made: Items<i128>, number: i128) -> Result<Items<i128>, AllocError>
    requires { unsigned_abs number ≤ 2 ^ 63 }
    ensures { IfOk result (λ new. new ≡ made ++ near number) }
{
    let made = with_beside(made, number)?;
    with_beside(made, -number)
}

/// The list with a number and those beside it behind it.
#[tactic(auto, using(crate::proofs::Collecting::near_steps))]
fn with_beside(made: Items<i128>, number: i128) -> Result<Items<i128>, AllocError>
    requires { unsigned_abs number ≤ 2 ^ 63 }
    ensures { IfOk result (λ new. new ≡ made ++ beside number) }
{
    let mut made = made;
    made.push(number - 1)?;
    made.push(number)?;
    made.push(number + 1)?;
    Ok(made)
}

/// The list with the thresholds at a number of a text behind it.
#[tactic(auto, using(crate::proofs::Collecting::collect_steps))]
fn with_threshold(made: Items<i128>, number: &Collected) -> Result<Items<i128>, AllocError>
    ensures { IfOk result (λ new. new ≡ made ++ thresholds_at number.now) }
{
    match number {
        Collected::Constant(constant) => with_near(made, i128::from(*constant)),
        Collected::Coefficient(_) => Ok(made),
        Collected::Divisor(divisor) => with_near(made, i128::from(*divisor)),
        Collected::Step(step) => with_near(made, i128::from(step.unsigned_abs())),
    }
}

/// The list with the thresholds at the numbers of a text behind it.
#[tactic(auto, using(crate::proofs::Collecting::collect_steps))]
fn with_thresholds(made: Items<i128>, numbers: &[Collected]) -> Result<Items<i128>, AllocError>
    ensures { IfOk result (λ new. new ≡ made ++ flat_map thresholds_at numbers.now) }
{
    let mut made = made;
    for number in numbers {
        made = with_threshold(made, number)?;
    }
    Ok(made)
}

/// The list with the absolute value of a number behind it, where it is from 2 to 16.
#[tactic(auto, using(crate::proofs::Collecting::collect_steps))]
fn with_size(made: Items<i128>, number: i64) -> Result<Items<i128>, AllocError>
    ensures { IfOk result (λ new. new ≡ made ++ small_size number) }
{
    let size = number.unsigned_abs();
    if size < 2 || size > 16 {
        return Ok(made);
    }
    let mut made = made;
    made.push(i128::from(size))?;
    Ok(made)
}

/// The list with the modulus of a number of a text behind it.
#[tactic(auto, using(crate::proofs::Collecting::collect_steps))]
fn with_modulus_at(made: Items<i128>, number: &Collected) -> Result<Items<i128>, AllocError>
    ensures { IfOk result (λ new. new ≡ made ++ modulus_at number.now) }
{
    match number {
        Collected::Constant(_) => Ok(made),
        Collected::Coefficient(coef) => with_size(made, *coef),
        Collected::Divisor(divisor) => with_size(made, *divisor),
        Collected::Step(step) => with_size(made, *step),
    }
}

/// The list with the moduli of the numbers of a text behind it.
#[tactic(auto, using(crate::proofs::Collecting::collect_steps))]
fn with_moduli(made: Items<i128>, numbers: &[Collected]) -> Result<Items<i128>, AllocError>
    ensures { IfOk result (λ new. new ≡ made ++ flat_map modulus_at numbers.now) }
{
    let mut made = made;
    for number in numbers {
        made = with_modulus_at(made, number)?;
    }
    Ok(made)
}
