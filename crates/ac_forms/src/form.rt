ghost use Rattle.std.specs.Prelude.{◌≡◌, ◌<◌, ◌≤◌, ◌+◌, ◌-◌, ◌*ℤ◌, ◌+ℤ◌, pos, negsuc, length, OkIff, IfOk, IfSome, slice_index_or, set};
ghost use Rattle.ac_forms.specs.Affine.{Affine, value_at, coef, constant_form, column_form, added, scaled, combined, shifted, FormFits, CanEvaluate, CanCombine, CanAddTimes, MixFits};
ghost use Rattle.ac_forms.specs.Fits.{Fits, AllFit};
ghost use Rattle.ac_forms.specs.Negation.{opposite, with_column};
ghost use Rattle.ac_forms.specs.FormStops.{MadeIff};

use crate::stop::{FormStop, Wide};
use smallvec::SmallVec;
use std::alloc::{AllocError, Global};
use std::marker::Model;

/// An affine form: a constant plus a sum of columns, each times its coefficient.
///
/// A missing coefficient is 0. Up to 8 coefficients are kept in the form itself, without an allocation.
#[derive(Drop)]
pub struct Form {
    konst: i128,
    coefs: SmallVec<i128, 8>,
}

impl Model for Form {
    ghost use Rattle.ac_forms.specs.Affine.{Affine};

    ghost Value = { Affine };

    ghost view = { λ f. record { konst = f.konst; coefs = f.coefs.items } };
}

impl Form {
    /// The form of a number, over that many columns.
    pub fn constant(alloc: Global, columns: usize, c: i128) -> Result<Form, AllocError>
        ensures { IfOk result (λ form. form ≡ constant_form columns c) }
    {
        Ok(Form {
            konst: c,
            coefs: SmallVec::from_elem(alloc, 0, columns)?,
        })
    }

    /// The form of column `k`, of that many columns.
    pub fn column(alloc: Global, columns: usize, k: usize) -> Result<Form, AllocError>
        requires { k < columns }
        ensures { IfOk result (λ form. form ≡ column_form columns k) }
    {
        let mut coefs = SmallVec::from_elem(alloc, 0, k)?;
        coefs.push(1)?;
        let rest = SmallVec::<i128, 8>::from_elem(alloc, 0, columns - k - 1)?;
        coefs.extend_from_slice(rest.as_slice())?;
        Ok(Form { konst: 0, coefs })
    }

    /// The form of a constant and of coefficients, column by column.
    pub fn from_parts(alloc: Global, konst: i128, coefs: &[i128]) -> Result<Form, AllocError>
        ensures { IfOk result (λ form. form ≡ record { konst = konst; coefs = coefs.now }) }
    {
        Ok(Form {
            konst,
            coefs: SmallVec::from_slice(alloc, coefs)?,
        })
    }

    /// The form of a constant and of coefficients, which it takes over.
    pub(crate) fn with_coefs(konst: i128, coefs: SmallVec<i128, 8>) -> Form
        ensures { result ≡ record { konst = konst; coefs = coefs.items } }
    {
        Form { konst, coefs }
    }

    /// The constant and the coefficients that are kept.
    pub(crate) fn into_parts(self) -> (i128, SmallVec<i128, 8>)
        ensures konst { result.0 ≡ self.konst }
        ensures coefs { result.1.items ≡ self.coefs }
    {
        let Form { konst, coefs } = self;
        (konst, coefs)
    }

    /// The same form again.
    pub fn copy(&self, alloc: Global) -> Result<Form, AllocError>
        ensures { IfOk result (λ form. form ≡ self.now) }
    {
        Form::from_parts(alloc, self.konst, self.coefs.as_slice())
    }

    /// The constant.
    pub fn konst(&self) -> i128
        ensures { result ≡ self.now.konst }
    {
        self.konst
    }

    /// The coefficients that are kept, column by column.
    pub fn coefs(&self) -> &[i128]
        ensures { result.now ≡ self.now.coefs }
    {
        self.coefs.as_slice()
    }

    /// How many coefficients are kept.
    pub fn columns(&self) -> usize
        ensures { result ≡ length self.now.coefs }
    {
        self.coefs.len()
    }

    /// The coefficient of a column, 0 where none is kept.
    pub fn coef(&self, column: usize) -> i128
        ensures { result ≡ coef column self.now }
    {
        coefficient(self.coefs.as_slice(), column)
    }

    /// The value at a point, which has a number for each column; `Wide` exactly where a product or a partial sum,
    /// in the order of the columns and the constant last, leaves `i128`.
    #[tactic(auto, using(crate::proofs::Sums::eval_steps))]
    pub fn eval(&self, point: &[i128]) -> Result<i128, Wide>
        requires { length self.now.coefs ≤ length point.now }
        ensures { OkIff result (CanEvaluate self.now point.now) (value_at self.now point.now) }
    {
        let coefs = self.coefs.as_slice();
        let mut sum: i128 = 0;
        for i in 0..coefs.len() {
            let Some(product) = coefs[i].checked_mul(point[i]) else {
                return Err(Wide);
            };
            let Some(next) = sum.checked_add(product) else {
                return Err(Wide);
            };
            sum = next;
        }
        match sum.checked_add(self.konst) {
            Some(value) => Ok(value),
            None => Err(Wide),
        }
    }

    /// `left` times this form plus `right` times the other; `Wide` exactly where a product or a sum, column by
    /// column and the constant last, leaves `i128`.
    #[tactic(auto, using(crate::proofs::Mixes::mix_steps))]
    pub fn combine(
        &self,
        alloc: Global,
        left: i128,
        other: &Form,
        right: i128,
    ) -> Result<Form, FormStop>
        ensures { MadeIff result (CanCombine left self.now right other.now) (combined left self.now right other.now) }
    {
        let columns = self.columns().max(other.columns());
        let mut coefs = SmallVec::with_capacity(alloc, columns)?;
        for column in 0..columns {
            let coef = mixed(left, self.coef(column), right, other.coef(column))?;
            coefs.push(coef)?;
        }
        let konst = mixed(left, self.konst, right, other.konst)?;
        Ok(Form { konst, coefs })
    }

    /// The sum of two forms; `Wide` exactly where a number of it leaves `i128`.
    pub fn add(&self, alloc: Global, other: &Form) -> Result<Form, FormStop>
        ensures { MadeIff result (FormFits (added self.now other.now)) (added self.now other.now) }
    {
        self.see_range();
        other.see_range();
        self.combine(alloc, 1, other, 1)
    }

    /// This form plus `c` times the other; `Wide` exactly where a product or a sum, column by column and the
    /// constant last, leaves `i128`.
    pub fn add_times(&self, alloc: Global, c: i128, other: &Form) -> Result<Form, FormStop>
        ensures { MadeIff result (CanAddTimes self.now c other.now) (combined (pos 1) self.now c other.now) }
    {
        self.see_range();
        self.combine(alloc, 1, other, c)
    }

    /// `k` times the form; `Wide` exactly where a product leaves `i128`.
    pub fn scale(&self, alloc: Global, k: i128) -> Result<Form, FormStop>
        ensures { MadeIff result (FormFits (scaled k self.now)) (scaled k self.now) }
    {
        let zero = Form {
            konst: 0,
            coefs: SmallVec::new(alloc),
        };
        self.combine(alloc, k, &zero, 0)
    }

    /// The opposite of the form; `Wide` exactly where the opposite of a number leaves `i128`.
    pub fn opposite(&self, alloc: Global) -> Result<Form, FormStop>
        ensures { MadeIff result (FormFits (opposite self.now)) (opposite self.now) }
    {
        self.scale(alloc, -1)
    }

    /// The form with another constant.
    #[tactic(auto, using(ac_base::proofs::Bits::again_128))]
    pub fn with_konst(self, konst: i128) -> Form
        ensures { result ≡ record { konst = konst; coefs = self.coefs } }
    {
        Form {
            konst,
            coefs: self.coefs,
        }
    }

    /// The form with other numbers as its constant and as the coefficient of a column, where it keeps one.
    #[tactic(auto, using(ac_base::proofs::Bits::again_128))]
    pub fn with_numbers(
        &self,
        alloc: Global,
        column: usize,
        coef: &i128,
        konst: &i128,
    ) -> Result<Form, AllocError>
        ensures { IfOk result (λ form. form ≡ record { konst = konst.now; coefs = set self.now.coefs column coef.now }) }
    {
        let mut coefs = SmallVec::from_slice(alloc, self.coefs.as_slice())?;
        set_number(coefs.as_mut_slice(), column, coef);
        Ok(Form {
            konst: *konst,
            coefs,
        })
    }

    /// The form plus a number; `Wide` exactly where the constant leaves `i128`.
    #[tactic(auto, using(ac_base::proofs::Bits::again_128))]
    pub fn shift(&self, alloc: Global, c: i128) -> Result<Form, FormStop>
        ensures { MadeIff result (Fits (self.now.konst +ℤ c)) (shifted self.now c) }
    {
        let Some(konst) = self.konst.checked_add(c) else {
            return Err(FormStop::Wide);
        };
        Ok(Form::from_parts(alloc, konst, self.coefs.as_slice())?)
    }

    /// The form plus `k` times a further column, behind that many.
    #[tactic(auto, using(ac_base::proofs::Bits::again_128))]
    pub fn with_column(&self, alloc: Global, columns: usize, k: i128) -> Result<Form, AllocError>
        requires { length self.now.coefs ≤ columns }
        ensures { IfOk result (λ form. form ≡ with_column columns k self.now) }
    {
        let mut coefs = SmallVec::from_slice(alloc, self.coefs.as_slice())?;
        let zeros = SmallVec::<i128, 8>::from_elem(alloc, 0, columns - coefs.len())?;
        coefs.extend_from_slice(zeros.as_slice())?;
        coefs.push(k)?;
        Ok(Form {
            konst: self.konst,
            coefs,
        })
    }

    /// Shows that each number of the form is one of `i128`.
    pub(crate) fn see_range(&self)
        ensures { FormFits self.now }
    {
        see_slice(self.coefs.as_slice());
        let _konst = self.konst;
    }
}

/// Writes a number at a place, where the list has it.
#[tactic(auto, using(ac_base::proofs::Bits::again_128, crate::proofs::Settings::set_beyond))]
pub fn set_number(numbers: &mut [i128], at: usize, number: &i128)
    ensures { numbers.new ≡ set numbers.old at number.now }
{
    if at < numbers.len() {
        numbers[at] = *number;
    }
}

/// The number of a column, 0 past the end of the list.
pub fn coefficient(coefs: &[i128], column: usize) -> i128
    ensures { result ≡ slice_index_or coefs.now column (pos 0) }
{
    if column < coefs.len() {
        coefs[column]
    } else {
        0
    }
}

/// `left * x + right * y`.
#[tactic(auto, using(ac_base::proofs::Bits::again_128))]
fn mixed(left: i128, x: i128, right: i128, y: i128) -> Result<i128, Wide>
    ensures { OkIff result (MixFits left x right y) (left *ℤ x +ℤ right *ℤ y) }
{
    let first = product(left, x)?;
    let second = product(right, y)?;
    match first.checked_add(second) {
        Some(sum) => Ok(sum),
        None => Err(Wide),
    }
}

/// `x * y`, by a product in 64 bits where that serves.
#[tactic(auto, using(ac_base::proofs::Bits::again_128))]
fn product(x: i128, y: i128) -> Result<i128, Wide>
    ensures { OkIff result (Fits (x *ℤ y)) (x *ℤ y) }
{
    match short_product(x, y) {
        Some(short) => Ok(short),
        None => x.checked_mul(y).ok_or(Wide),
    }
}

/// `x * y`, where both numbers and the product have 64 bits.
#[tactic(auto, using(ac_base::proofs::Bits::again_128))]
fn short_product(x: i128, y: i128) -> Option<i128>
    ensures { IfSome result (λ short. short ≡ x *ℤ y) }
{
    let left = i64::try_from(x).ok()?;
    let right = i64::try_from(y).ok()?;
    Some(i128::from(left.checked_mul(right)?))
}

/// Shows that each number of a slice is one of `i128`.
#[tactic(auto, using(crate::proofs::Adds::all_fit_steps))]
fn see_slice(numbers: &[i128])
    ensures { AllFit numbers.now }
{
    for number in numbers {
        let _read = *number;
    }
}
