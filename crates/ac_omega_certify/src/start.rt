ghost use Rattle.std.specs.Prelude.{◌≡◌, ℕ, length, IfOk};
ghost use Rattle.ac_forms.specs.declared.conj.Conj.{Conj};
ghost use Rattle.ac_omega_certify.specs.TreePathRows.{Starts};

use crate::path::TreePath;
use ac_base::Items;
use ac_cert::types::Step;
use ac_forms::Form;
use std::alloc::{AllocError, Global};

impl TreePath {
    /// The tree path behind so many columns and rows, with the row `1 >= 0`: the sum of the two rows of the quotient of 0 by 2.
    pub fn start(alloc: Global, columns: usize, rows: usize) -> Result<TreePath, AllocError>
        ensures { IfOk result (λ t. (start : Conj) → start.columns ≡ columns → length start.rows ≡ rows → Starts t start) }
    {
        let (Some(columns), Some(high), Some(one)) = (
            columns.checked_add(1),
            rows.checked_add(1),
            rows.checked_add(2),
        ) else {
            return Err(AllocError);
        };
        let zero = Form::constant(alloc, 0, 0)?;
        let mut steps = Items::new(alloc);
        steps.push(Step::Floor(2, zero))?;
        let mut tree_path = TreePath {
            steps,
            columns,
            rows: one,
            one,
        };
        let _place = tree_path.add_two(alloc, rows, 1, high, 1)?;
        Ok(tree_path)
    }
}
