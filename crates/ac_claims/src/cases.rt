//! The branches of a step of the pair, one by one.
ghost use Rattle.std.specs.Prelude.{◌≡◌, ◌≢◌, ◌∷◌, ◌++◌, [], map, reverse, IfOk, OnOk};
ghost use Rattle.ac_claims_paths.specs.BranchPaths.{onto};
ghost use Rattle.ac_claims_paths.specs.ModelCalls.{pairing};
ghost use Rattle.ac_claims.specs.StackEntries.{AreEntries, Settles, branches_of, dues};
ghost use Rattle.ac_claims.specs.Machine.{Onto, PlanAt, take_at};
ghost use Rattle.ac_claims.specs.declared.item.Item.TheVariants as item;

use crate::entry::{Awaited, Entry, Line, Refusal, TakeStop};
use crate::parts::{awaits, push_at};
use ac_base::Items;
use ac_cert::Rule;
use ac_claims_paths::going::{branches, onto};
use ac_claims_paths::path::{Branch, Path};
use ac_forms::Row;
use ac_syntax::tree::Order;
use std::alloc::AllocError;

/// The branches, the last one first.
fn reversed(branches: Items<Branch>) -> Items<Branch>
    ensures { result ≡ reverse branches }
{
    let mut list = branches.into_vec();
    list.reverse();
    Items::from(list)
}

/// Puts branches of a path onto what is due.
fn put_branches(
    due: &mut Items<Entry>,
    path: Path,
    branches: Items<Branch>,
) -> Result<Items<Row>, TakeStop>
    requires { AreEntries path.conj.rows due.old }
    ensures { Settles (Onto (map PlanAt (map (onto path) branches) ++ dues path.conj.rows due.old)) due.new result }
{
    if branches.is_empty() {
        return Ok(path.conj.rows);
    }
    awaits(due, path, Awaited::Branches(reversed(branches)))
}

/// The path of the first of some branches, the next one last. Those behind it are put onto what is due.
pub(crate) fn first_branch(
    path: Path,
    left: Items<Branch>,
    due: &mut Items<Entry>,
) -> Result<Path, AllocError>
    requires some { left ≢ [] }
    requires entries { AreEntries path.conj.rows due.old }
    ensures value { IfOk result (λ next. PlanAt next ∷ dues next.conj.rows due.new ≡ branches_of path left ++ dues path.conj.rows due.old) }
    ensures entries { IfOk result (λ next. AreEntries next.conj.rows due.new) }
{
    let mut left = left;
    match left.pop() {
        Some(branch) => branch_at(path, branch, left, due),
        None => unreachable!(),
    }
}

/// The path behind a branch. The further ones, the next one last, are put onto what is due.
fn branch_at(
    path: Path,
    branch: Branch,
    left: Items<Branch>,
    due: &mut Items<Entry>,
) -> Result<Path, AllocError>
    requires { AreEntries path.conj.rows due.old }
    ensures value { IfOk result (λ next. PlanAt next ∷ dues next.conj.rows due.new ≡ PlanAt (onto path branch) ∷ branches_of path left ++ dues path.conj.rows due.old) }
    ensures entries { IfOk result (λ next. AreEntries next.conj.rows due.new) }
{
    put_further(due, &path, left)?;
    onto(path, branch)
}

/// Puts further branches, the next one last, onto what is due.
fn put_further(due: &mut Items<Entry>, path: &Path, left: Items<Branch>) -> Result<(), AllocError>
    requires { AreEntries path.now.conj.rows due.old }
    ensures dues { OnOk result (dues path.now.conj.rows due.new ≡ branches_of path.now left ++ dues path.now.conj.rows due.old) }
    ensures entries { OnOk result (AreEntries path.now.conj.rows due.new) }
{
    if left.is_empty() {
        return Ok(());
    }
    push_at(due, path, Awaited::Branches(left))
}

/// A step of the pair.
pub(crate) fn take_go(
    line: &Line,
    order: Order,
    cases: usize,
    path: Path,
    due: &mut Items<Entry>,
) -> Result<Items<Row>, TakeStop>
    requires { AreEntries path.conj.rows due.old }
    ensures { Settles (take_at (pairing line.now.programs.now) line.now.claims.now (item.Go order cases) line.now.number path (dues path.conj.rows due.old)) due.new result }
{
    let refusal = Refusal {
        line: line.number,
        rule: Rule::Go,
    };
    match branches(line.alloc, line.programs, order, &path)? {
        None => Err(TakeStop::Refused(refusal)),
        Some(found) => {
            if found.len() != cases {
                return Err(TakeStop::Refused(refusal));
            }
            put_branches(due, path, found)
        }
    }
}
