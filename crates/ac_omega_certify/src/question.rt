//! The rows of a question on the path of its certificate.
ghost use Rattle.std.specs.Prelude.{◌≡◌, [], length, IfOk};
ghost use Rattle.ac_forms.specs.Rows.{IsWellMade};
ghost use Rattle.ac_omega_certify.specs.ChoiceBranches.{IsFirst, numbers_from};
ghost use Rattle.ac_omega_certify.specs.Refutations.{AreWithin2To120};

use crate::branch::Branch;
use crate::by_equality::copied;
use crate::descent::Standing;
use crate::path::TreePath;
use ac_forms::Conj;
use std::alloc::{AllocError, Global};

/// So many numbers from 0 on.
#[tactic(auto, using(crate::proofs::Questions::numbers_step))]
fn first_numbers(alloc: Global, count: usize) -> Result<Vec<usize>, AllocError>
    ensures { IfOk result (λ numbers. numbers.items ≡ numbers_from 0 count) }
{
    let mut numbers = Vec::new(alloc);
    for i in 0..count {
        numbers.push(i)?;
    }
    Ok(numbers)
}

/// The branch of a question: its rows at their places, under the numbers of their columns, behind the row `1 >= 0`.
pub(crate) fn question_branch(alloc: Global, question: &Conj) -> Result<Branch, AllocError>
    requires made { IsWellMade question.now }
    requires within_2_to_120 { AreWithin2To120 question.now.rows [] }
    ensures { IfOk result (λ b. IsFirst question.now b) }
{
    let tree_path = TreePath::start(alloc, question.columns, question.rows.len())?;
    let names = first_numbers(alloc, question.columns)?;
    let places = first_numbers(alloc, question.rows.len())?;
    let rows = copied(alloc, question.rows.as_slice())?;
    Ok(Branch {
        tree_path,
        names,
        standing: Standing { rows, places },
    })
}
