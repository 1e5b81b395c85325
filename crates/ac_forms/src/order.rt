ghost use Rattle.std.specs.Prelude.{◌==◌, ◌≡◌, refl};
ghost use Rattle.std.specs.Cmp.{partial_order_from_own_ties, partial_order_from_total, partial_equiv_from_equiv};
ghost use Rattle.std.specs.Ordering.{as_partial_cmp};
ghost use Rattle.ac_forms.specs.FormOrder.{form_cmp, form_eq, columns_cmp};
ghost use Rattle.ac_forms.specs.Ties.{form_ties, form_total, form_equiv};

use crate::form::{Form, coefficient};
use std::cmp::Ordering;

#[tactic(auto, using(crate::proofs::Comparing::compare_steps))]
/// Compares two lists of coefficients column by column; one that ends first stands for zeros.
fn compare_columns(left: &[i128], right: &[i128]) -> Ordering
    ensures { result ≡ columns_cmp left.now right.now }
{
    let columns = left.len().max(right.len());
    for column in 0..columns {
        let order = coefficient(left, column).cmp(&coefficient(right, column));
        if order != Ordering::Equal {
            return order;
        }
    }
    Ordering::Equal
}

impl PartialEq for Form {
    ghost eq = { form_eq };

    ghost laws = { partial_equiv_from_equiv form_equiv };

    fn eq(&self, other: &Form) -> bool {
        self.coefs() == other.coefs() && self.konst() == other.konst()
    }
}

impl Eq for Form {
    ghost laws = { form_equiv };
}

impl Ord for Form {
    ghost cmp = { form_cmp };

    ghost total = { form_total };

    ghost matches_partial_cmp = { λ _ _. refl };

    ghost matches_eq = { form_ties };

    fn cmp(&self, other: &Form) -> Ordering {
        compare_columns(self.coefs(), other.coefs())
            .then(self.konst().cmp(&other.konst()))
            .then(self.columns().cmp(&other.columns()))
    }
}

impl PartialOrd for Form {
    ghost partial_cmp = { as_partial_cmp form_cmp };

    ghost laws = { partial_order_from_own_ties (partial_order_from_total form_total) form_ties };

    fn partial_cmp(&self, other: &Form) -> Option<Ordering> {
        Some(self.cmp(other))
    }
}
