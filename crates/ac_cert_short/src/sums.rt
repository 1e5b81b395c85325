//! Sums of multiples of rows, and the columns that equalities take out of them.

ghost use Rattle.std.specs.Prelude.{◌<◌};

use crate::units::unit_column;
use ac_forms::{Form, FormStop};
use std::alloc::{AllocError, Global};

/// A sum of multiples of the rows of a conjunction: its form over the columns, and the factors over the rows.
#[derive(Drop)]
pub(crate) struct Sum {
    pub form: Form,
    pub factors: Form,
}

/// A sum of equalities with a column whose coefficient is 1 or -1, and whether it is 1: it takes that column out of others.
#[derive(Drop)]
pub(crate) struct Solved {
    column: usize,
    is_one: bool,
    sum: Sum,
}

impl Solved {
    /// The sum as one that takes out a column, where it has a coefficient 1 or -1.
    pub(crate) fn of(sum: Sum) -> Option<Solved> {
        match unit_column(&sum.form) {
            Some((column, is_one)) => Some(Solved {
                column,
                is_one,
                sum,
            }),
            None => None,
        }
    }

    /// The factor with which it takes its column out of a form; none where the form doesn't have it, or the factor leaves `i128`.
    fn factor(&self, form: &Form) -> Option<i128> {
        let coef = form.coef(self.column);
        if coef == 0 {
            return None;
        }
        if self.is_one {
            coef.checked_neg()
        } else {
            Some(coef)
        }
    }
}

/// A form without the column of an equality; the form itself where a number leaves `i128`.
fn form_without(alloc: Global, form: Form, equality: &Solved) -> Result<Form, AllocError> {
    let Some(factor) = equality.factor(&form) else {
        return Ok(form);
    };
    match form.combine(alloc, 1, &equality.sum.form, factor) {
        Ok(rest) => Ok(rest),
        Err(FormStop::Wide) => Ok(form),
        Err(FormStop::Memory(want)) => Err(want),
    }
}

/// A form without the columns of equalities, taken out one after the other.
pub(crate) fn reduced_form(
    alloc: Global,
    form: &Form,
    equalities: &[Solved],
) -> Result<Form, AllocError> {
    let mut rest = form.copy(alloc)?;
    for equality in equalities {
        rest = form_without(alloc, rest, equality)?;
    }
    Ok(rest)
}

impl Sum {
    /// A row by itself, of so many.
    pub(crate) fn row(
        alloc: Global,
        form: &Form,
        rows: usize,
        place: usize,
    ) -> Result<Sum, AllocError>
        requires { place < rows }
    {
        Ok(Sum {
            form: form.copy(alloc)?,
            factors: Form::column(alloc, rows, place)?,
        })
    }

    /// The same with a multiple of another added.
    pub(crate) fn plus(&self, alloc: Global, other: &Sum, factor: i128) -> Result<Sum, FormStop> {
        Ok(Sum {
            form: self.form.combine(alloc, 1, &other.form, factor)?,
            factors: self.factors.combine(alloc, 1, &other.factors, factor)?,
        })
    }

    /// The same without the column of an equality; the same where a number leaves `i128`.
    fn without(self, alloc: Global, equality: &Solved) -> Result<Sum, AllocError> {
        let Some(factor) = equality.factor(&self.form) else {
            return Ok(self);
        };
        match self.plus(alloc, &equality.sum, factor) {
            Ok(rest) => Ok(rest),
            Err(FormStop::Wide) => Ok(self),
            Err(FormStop::Memory(want)) => Err(want),
        }
    }

    /// The same without the columns of equalities, taken out one after the other.
    pub(crate) fn reduced(self, alloc: Global, equalities: &[Solved]) -> Result<Sum, AllocError> {
        let mut rest = self;
        for equality in equalities {
            rest = rest.without(alloc, equality)?;
        }
        Ok(rest)
    }
}
