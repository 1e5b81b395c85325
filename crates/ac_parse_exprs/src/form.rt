ghost use Rattle.std.specs.Prelude.{◌≡◌, [], slice_index_or, ◌+ℤ◌, ◌*ℤ◌, pos, negsuc, Some, None, IfOk, if◌then◌else◌};
ghost use Rattle.std.specs.List.{list_all};
ghost use Rattle.ac_syntax.specs.Index.{is_zero};
ghost use Rattle.ac_parse_exprs.specs.Comparisons.{placed_form};
ghost use Rattle.ac_parse_exprs.specs.AffineForms.{is_small, all_small, is_within, is_kept, all_kept, are_kept, is_constant, plus_times, times, sum_form, multiple_form, indicator, unit, zeros, constant_form, parameter_form, iterator_form, quotient_form, joined_quots, scaled_quots, counts_as_constant, is_known, is_large, limited, sum_of, known_product, large_product, product_of, negative_of, signed};

use crate::quotients::{are_small, are_zero, counted, joined, scaled};
use ac_base::Items;
use ac_syntax::tree::{IndexExpr, Place, Quot};
use std::alloc::{AllocError, Global};

/// An affine form: a constant, a coefficient for each integer parameter, one for each iterator, the outermost first, and quotients
/// with their coefficients, in the order in which they first appear.
#[derive(Drop)]
pub struct Affine {
    pub constant: i128,
    pub params: Items<i128>,
    pub iters: Items<i128>,
    pub quots: Items<Quot>,
}

/// What is collected of an expression.
#[derive(Drop)]
pub enum Collected {
    /// Its form, in exact numbers of at most 2^126 in absolute value; coefficients of quotients are within the limit.
    Known(Affine),
    /// Some number passes that; whether the expression counts as constant.
    Large(bool),
    /// A rule is broken inside.
    Unknown,
}

/// Whether the number is within the limit of an index expression.
pub(crate) fn is_small(z: i128) -> bool
    ensures { result ≡ is_small z }
{
    z.unsigned_abs() <= 2147483648
}

/// The number, where it is within the limit of an index expression.
pub(crate) fn small(z: i128) -> Option<i64>
    ensures { result ≡ (if is_small z then Some z else None) }
{
    if z.unsigned_abs() <= 2147483648 {
        Some(z as i64)
    } else {
        None
    }
}

/// The number, where it is kept: where its absolute value is at most 2^126.
pub fn kept(z: i128) -> Option<i128>
    ensures { result ≡ (if is_kept z then Some z else None) }
{
    if z.unsigned_abs() <= 85070591730234615865843651857942052864 {
        Some(z)
    } else {
        None
    }
}

/// 1, or -1 where `down`.
pub(crate) fn sign(down: bool) -> i128
    ensures { result ≡ signed down }
{
    if down { -1 } else { 1 }
}

/// `x + y`, or `x - y` where `down`; none exactly where that is not kept.
fn sum(x: i128, down: bool, y: i128) -> Option<i128>
    ensures { result ≡ (if is_kept (x +ℤ signed down *ℤ y) then Some (x +ℤ signed down *ℤ y) else None) }
{
    let sum = if down {
        x.checked_sub(y)?
    } else {
        x.checked_add(y)?
    };
    kept(sum)
}

/// `k x`; none exactly where that is not kept.
fn product(k: i128, x: i128) -> Option<i128>
    ensures { result ≡ (if is_kept (k *ℤ x) then Some (k *ℤ x) else None) }
{
    kept(k.checked_mul(x)?)
}

/// A coefficient, 0 where the list has none.
pub fn coefficient(xs: &[i128], at: usize) -> i128
    ensures { result ≡ slice_index_or xs.now at (pos 0) }
{
    match xs.get(at) {
        None => 0,
        Some(x) => *x,
    }
}

/// Column by column the first plus the second, or less it where `down`; none exactly where a number is not kept.
#[tactic(auto, using(crate::proofs::Columns::columns))]
pub fn sums(
    alloc: Global,
    xs: &[i128],
    down: bool,
    ys: &[i128],
) -> Result<Option<Items<i128>>, AllocError>
    ensures { IfOk result (λ sums. sums ≡ (if all_kept (plus_times (signed down) xs.now ys.now) then Some (plus_times (signed down) xs.now ys.now) else None)) }
{
    let mut sums = Items::new(alloc);
    for i in 0..xs.len() {
        let Some(z) = sum(xs[i], down, coefficient(ys, i)) else {
            return Ok(None);
        };
        sums.push(z)?;
    }
    Ok(Some(sums))
}

/// `k` times each; none exactly where a number is not kept.
#[tactic(auto, using(crate::proofs::Columns::columns))]
fn products(alloc: Global, k: i128, xs: &[i128]) -> Result<Option<Items<i128>>, AllocError>
    ensures { IfOk result (λ products. products ≡ (if all_kept (times k xs.now) then Some (times k xs.now) else None)) }
{
    let mut products = Items::new(alloc);
    for x in xs {
        let Some(z) = product(k, *x) else {
            return Ok(None);
        };
        products.push(z)?;
    }
    Ok(Some(products))
}

/// The numbers of an index expression; none exactly where one passes the limit.
#[tactic(auto, using(crate::proofs::Columns::columns))]
fn narrowed(alloc: Global, xs: &[i128]) -> Result<Option<Items<i64>>, AllocError>
    ensures { IfOk result (λ numbers. numbers ≡ (if all_small xs.now then Some xs.now else None)) }
{
    let mut numbers = Items::new(alloc);
    for x in xs {
        let Some(z) = small(*x) else {
            return Ok(None);
        };
        numbers.push(z)?;
    }
    Ok(Some(numbers))
}

fn all_small(xs: &[i128]) -> bool
    ensures { result ≡ all_small xs.now }
{
    for x in xs {
        if !is_small(*x) {
            return false;
        }
    }
    true
}

fn all_zero(xs: &[i128]) -> bool
    ensures { result ≡ list_all is_zero xs.now }
{
    for x in xs {
        if *x != 0 {
            return false;
        }
    }
    true
}

fn zeros(alloc: Global, n: usize) -> Result<Items<i128>, AllocError>
    ensures { IfOk result (λ xs. xs ≡ zeros n) }
{
    Ok(Items::from(Vec::from_elem(alloc, 0, n)?))
}

fn indicator(j: usize, k: usize) -> i128
    ensures { result ≡ indicator k j }
{
    if j == k { 1 } else { 0 }
}

/// So many numbers, 1 in the place `k` and 0 in all others.
fn unit(alloc: Global, n: usize, k: usize) -> Result<Items<i128>, AllocError>
    ensures { IfOk result (λ xs. xs ≡ unit n k) }
{
    let mut numbers = Items::new(alloc);
    for j in 0..n {
        numbers.push(indicator(j, k))?;
    }
    Ok(numbers)
}

impl Affine {
    /// Whether no parameter, no iterator and no quotient counts.
    pub(crate) fn is_constant(&self) -> bool
        ensures { result ≡ is_constant self.now }
    {
        all_zero(self.params.as_slice())
            && all_zero(self.iters.as_slice())
            && are_zero(self.quots.as_slice())
    }

    /// Whether each number is within the limit of an index expression.
    fn is_within(&self) -> bool
        ensures { result ≡ is_within self.now }
    {
        is_small(self.constant)
            && all_small(self.params.as_slice())
            && all_small(self.iters.as_slice())
            && are_small(self.quots.as_slice())
            && self.quots.len() <= 65536
    }

    /// The form as an index expression; none exactly where a number passes the limit.
    pub(crate) fn index(&self, alloc: Global, place: Place) -> Result<Option<IndexExpr>, AllocError>
        ensures { IfOk result (λ index. index ≡ (if is_within self.now then Some (placed_form place self.now) else None)) }
    {
        if !self.is_within() {
            return Ok(None);
        }
        let Some(konst) = small(self.constant) else {
            return Ok(None);
        };
        let Some(params) = narrowed(alloc, self.params.as_slice())? else {
            return Ok(None);
        };
        let Some(iters) = narrowed(alloc, self.iters.as_slice())? else {
            return Ok(None);
        };
        Ok(Some(IndexExpr {
            konst,
            params,
            iters,
            quots: counted(alloc, self.quots.as_slice())?,
            place,
        }))
    }

    /// The form plus another, or less it where `down`.
    fn plus(
        &self,
        alloc: Global,
        down: bool,
        other: &Affine,
        constant: bool,
    ) -> Result<Collected, AllocError>
        ensures { IfOk result (λ collected. collected ≡ limited (joined_quots (signed down) self.now.quots other.now.quots) (sum_form (signed down) self.now other.now) constant) }
    {
        let Some(number) = sum(self.constant, down, other.constant) else {
            return Ok(Collected::Large(constant));
        };
        let left = self.params.as_slice();
        let Some(params) = sums(alloc, left, down, other.params.as_slice())? else {
            return Ok(Collected::Large(constant));
        };
        let left = self.iters.as_slice();
        let Some(iters) = sums(alloc, left, down, other.iters.as_slice())? else {
            return Ok(Collected::Large(constant));
        };
        let left = self.quots.as_slice();
        let Some(quots) = joined(alloc, down, left, other.quots.as_slice())? else {
            return Ok(Collected::Large(constant));
        };
        Ok(Collected::Known(Affine {
            constant: number,
            params,
            iters,
            quots,
        }))
    }

    /// `k` times the form.
    fn times(&self, alloc: Global, k: i128, constant: bool) -> Result<Collected, AllocError>
        ensures { IfOk result (λ collected. collected ≡ limited (scaled_quots k self.now.quots) (multiple_form k self.now) constant) }
    {
        let Some(number) = product(k, self.constant) else {
            return Ok(Collected::Large(constant));
        };
        let Some(params) = products(alloc, k, self.params.as_slice())? else {
            return Ok(Collected::Large(constant));
        };
        let Some(iters) = products(alloc, k, self.iters.as_slice())? else {
            return Ok(Collected::Large(constant));
        };
        let Some(quots) = scaled(alloc, k, self.quots.as_slice())? else {
            return Ok(Collected::Large(constant));
        };
        Ok(Collected::Known(Affine {
            constant: number,
            params,
            iters,
            quots,
        }))
    }

    /// The product with another form, of which one has to be constant.
    fn product(&self, alloc: Global, other: &Affine) -> Result<Collected, AllocError>
        ensures { IfOk result (λ collected. collected ≡ known_product self.now other.now) }
    {
        if self.is_constant() {
            other.times(alloc, self.constant, other.is_constant())
        } else if other.is_constant() {
            self.times(alloc, other.constant, false)
        } else {
            Ok(Collected::Unknown)
        }
    }
}

/// The form of a number, over so many parameters and iterators.
pub fn constant_form(
    alloc: Global,
    params: usize,
    iters: usize,
    number: i128,
) -> Result<Affine, AllocError>
    ensures { IfOk result (λ form. form ≡ constant_form params iters number) }
{
    Ok(Affine {
        constant: number,
        params: zeros(alloc, params)?,
        iters: zeros(alloc, iters)?,
        quots: Items::new(alloc),
    })
}

/// The form of the parameter `k`, over so many parameters and iterators.
pub fn parameter_form(
    alloc: Global,
    params: usize,
    iters: usize,
    k: usize,
) -> Result<Affine, AllocError>
    ensures { IfOk result (λ form. form ≡ parameter_form params iters k) }
{
    Ok(Affine {
        constant: 0,
        params: unit(alloc, params, k)?,
        iters: zeros(alloc, iters)?,
        quots: Items::new(alloc),
    })
}

/// The form of the iterator `k`, over so many parameters and iterators.
pub fn iterator_form(
    alloc: Global,
    params: usize,
    iters: usize,
    k: usize,
) -> Result<Affine, AllocError>
    ensures { IfOk result (λ form. form ≡ iterator_form params iters k) }
{
    Ok(Affine {
        constant: 0,
        params: zeros(alloc, params)?,
        iters: unit(alloc, iters, k)?,
        quots: Items::new(alloc),
    })
}

/// The form of a quotient alone, over so many parameters and iterators.
pub(crate) fn quotient_form(
    alloc: Global,
    params: usize,
    iters: usize,
    quot: Quot,
) -> Result<Affine, AllocError>
    ensures { IfOk result (λ form. form ≡ quotient_form params iters quot) }
{
    let mut quots = Items::new(alloc);
    quots.push(quot)?;
    Ok(Affine {
        constant: 0,
        params: zeros(alloc, params)?,
        iters: zeros(alloc, iters)?,
        quots,
    })
}

/// The product where a number of a side is not kept and both sides are known, by whether they count as constant.
fn large_product(left: bool, right: bool) -> Collected
    ensures { result ≡ large_product left right }
{
    if left || right {
        Collected::Large(left && right)
    } else {
        Collected::Unknown
    }
}

impl Collected {
    /// Whether the expression counts as constant.
    pub(crate) fn counts_as_constant(&self) -> bool
        ensures { result ≡ counts_as_constant self.now }
    {
        match self {
            Collected::Known(form) => form.is_constant(),
            Collected::Large(constant) => *constant,
            Collected::Unknown => false,
        }
    }

    /// Whether no rule is broken inside.
    pub(crate) fn is_known(&self) -> bool
        ensures { result ≡ is_known self.now }
    {
        match self {
            Collected::Known(_) | Collected::Large(_) => true,
            Collected::Unknown => false,
        }
    }

    /// Whether a number passes the limit of an index expression.
    pub(crate) fn is_large(&self) -> bool
        ensures { result ≡ is_large self.now }
    {
        match self {
            Collected::Known(form) => !form.is_within(),
            Collected::Large(_) => true,
            Collected::Unknown => false,
        }
    }

    /// The sum with another, or the difference where `down`.
    pub(crate) fn sum(
        &self,
        alloc: Global,
        down: bool,
        other: &Collected,
    ) -> Result<Collected, AllocError>
        ensures { IfOk result (λ sum. sum ≡ sum_of (signed down) self.now other.now) }
    {
        if !self.is_known() || !other.is_known() {
            return Ok(Collected::Unknown);
        }
        let constant = self.counts_as_constant() && other.counts_as_constant();
        match self {
            Collected::Known(left) => match other {
                Collected::Known(right) => left.plus(alloc, down, right, constant),
                _ => Ok(Collected::Large(constant)),
            },
            _ => Ok(Collected::Large(constant)),
        }
    }

    /// The product with another.
    pub(crate) fn product(&self, alloc: Global, other: &Collected) -> Result<Collected, AllocError>
        ensures { IfOk result (λ product. product ≡ product_of self.now other.now) }
    {
        if !self.is_known() || !other.is_known() {
            return Ok(Collected::Unknown);
        }
        let (left, right) = (self.counts_as_constant(), other.counts_as_constant());
        match self {
            Collected::Known(form) => match other {
                Collected::Known(second) => form.product(alloc, second),
                _ => Ok(large_product(left, right)),
            },
            _ => Ok(large_product(left, right)),
        }
    }

    /// The negative.
    pub(crate) fn negative(&self, alloc: Global) -> Result<Collected, AllocError>
        ensures { IfOk result (λ negative. negative ≡ negative_of self.now) }
    {
        match self {
            Collected::Known(form) => form.times(alloc, -1, form.is_constant()),
            Collected::Large(constant) => Ok(Collected::Large(*constant)),
            Collected::Unknown => Ok(Collected::Unknown),
        }
    }
}
