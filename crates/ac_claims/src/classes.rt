//! The classes of a residue branch, one by one.
ghost use Rattle.std.specs.Prelude.{◌≡◌, ◌≢◌, ◌∷◌, ◌++◌, ◌+ℤ◌, ◌-ℤ◌, ◌<ℤ◌, pos, IfOk, MatchOption, OnOk, true};
ghost use Rattle.ac_cert.specs.Rules.{class_row, has_class, with_row};
ghost use Rattle.ac_forms.specs.Fits.{fits};
ghost use Rattle.ac_forms.specs.Rows.{IsRowOver, IsWellMade};
ghost use Rattle.ac_claims_paths.specs.ModelCalls.{pairing};
ghost use Rattle.ac_claims_paths.specs.PathSteps.{at_rows};
ghost use Rattle.ac_claims.specs.StackEntries.{AreClasses, AreEntries, Settles, classes_of, dues};
ghost use Rattle.ac_claims.specs.Machine.{PlanAt, take_at};
ghost use Rattle.ac_claims.specs.declared.item.Item.TheVariants as item;

use crate::entry::{Awaited, Classes, Entry, Line, Refusal, TakeStop};
use crate::parts::{awaits, longer, push_at};
use ac_base::Items;
use ac_cert::{EndStop, Rule, row_of_class};
use ac_claims_paths::path::Path;
use ac_forms::{Form, Row};
use std::alloc::{AllocError, Global};

/// Whether a branch by the residue of a form stands: its last class does.
fn has_residues(
    alloc: Global,
    modulus: &i128,
    form: &Form,
    columns: usize,
) -> Result<bool, AllocError>
    ensures { IfOk result (λ answer. answer ≡ has_class modulus.now form.now (modulus.now -ℤ pos 1) columns) }
{
    if *modulus < 1 {
        return Ok(false);
    }
    let last = *modulus - 1;
    match row_of_class(alloc, modulus, form, &last, columns) {
        Ok(_) => Ok(true),
        Err(EndStop::Refused(_)) => Ok(false),
        Err(EndStop::Memory(want)) => Err(want),
    }
}

/// All classes of a residue branch.
#[tactic(auto, using(ac_base::proofs::Bits::again_128))]
fn all_classes(modulus: &i128, form: Form) -> Classes
    ensures { result ≡ record { modulus = modulus.now; form = form; next = pos 0 } }
{
    Classes {
        modulus: *modulus,
        form,
        next: 0,
    }
}

/// A branch by the residue of a form.
pub(crate) fn take_residue(
    line: &Line,
    modulus: &i128,
    form: &Form,
    path: Path,
    due: &mut Items<Entry>,
) -> Result<Items<Row>, TakeStop>
    requires { AreEntries path.conj.rows due.old }
    ensures { Settles (take_at (pairing line.now.programs.now) line.now.claims.now (item.Residue modulus.now form.now) line.now.number path (dues path.conj.rows due.old)) due.new result }
{
    if !has_residues(line.alloc, modulus, form, path.conj.columns)? {
        return Err(TakeStop::Refused(Refusal {
            line: line.number,
            rule: Rule::Residue,
        }));
    }
    let form = form.copy(line.alloc)?;
    let classes = all_classes(modulus, form);
    awaits(due, path, Awaited::Classes(classes))
}

/// The number of the class behind the first of some, if there is one.
#[tactic(auto, using(ac_base::proofs::Bits::again_128))]
fn next_of(classes: &Classes) -> Option<i128>
    requires { classes.now.next <ℤ classes.now.modulus }
    ensures { MatchOption result (classes.now.next +ℤ pos 1 ≡ classes.now.modulus) (λ next. (next ≡ classes.now.next +ℤ pos 1) × (classes.now.next +ℤ pos 1 ≢ classes.now.modulus)) }
{
    let modulus = classes.modulus;
    let first = classes.next;
    let next = first + 1;
    if next == modulus { None } else { Some(next) }
}

/// The classes from another one on.
#[tactic(auto, using(ac_base::proofs::Bits::again_128))]
fn from_next(classes: Classes, next: &i128) -> Classes
    ensures { result ≡ record classes { next = next.now } }
{
    let mut classes = classes;
    classes.next = *next;
    classes
}

/// Shows that the constant of a form is one of `i128`.
#[tactic(auto, using(ac_omega_steps::proofs::Fitting::fits_true, ac_base::proofs::Bits::again_128))]
fn see_constant(form: &Form)
    ensures { fits form.now.konst ≡ true }
{
    let _konst = form.konst();
}

/// The row of the first of some classes.
fn row_of_first(alloc: Global, columns: usize, classes: &Classes) -> Result<Row, AllocError>
    requires { AreClasses columns classes.now }
    ensures value { IfOk result (λ row. row ≡ class_row classes.now.modulus classes.now.form classes.now.next) }
    ensures over { IfOk result (λ row. IsRowOver columns row) }
{
    see_constant(&classes.form);
    match row_of_class(
        alloc,
        &classes.modulus,
        &classes.form,
        &classes.next,
        columns,
    ) {
        Ok(row) => Ok(row),
        Err(EndStop::Refused(_)) => unreachable!(),
        Err(EndStop::Memory(want)) => Err(want),
    }
}

/// Puts the classes from another one on onto what is due.
fn put_behind(
    due: &mut Items<Entry>,
    path: &Path,
    classes: Classes,
    next: &i128,
) -> Result<(), AllocError>
    requires classes { AreClasses path.now.conj.columns classes }
    requires next { next.now ≡ classes.next +ℤ pos 1 }
    requires more { classes.next +ℤ pos 1 ≢ classes.modulus }
    requires entries { AreEntries path.now.conj.rows due.old }
    ensures value { OnOk result (PlanAt (at_rows path.now (with_row path.now.conj (class_row classes.modulus classes.form classes.next))) ∷ dues path.now.conj.rows due.new ≡ classes_of path.now classes ++ dues path.now.conj.rows due.old) }
    ensures entries { OnOk result (AreEntries path.now.conj.rows due.new) }
{
    push_at(due, path, Awaited::Classes(from_next(classes, next)))
}

/// Puts the classes behind the first of some onto what is due.
fn put_further(due: &mut Items<Entry>, path: &Path, classes: Classes) -> Result<(), AllocError>
    requires classes { AreClasses path.now.conj.columns classes }
    requires entries { AreEntries path.now.conj.rows due.old }
    ensures value { OnOk result (PlanAt (at_rows path.now (with_row path.now.conj (class_row classes.modulus classes.form classes.next))) ∷ dues path.now.conj.rows due.new ≡ classes_of path.now classes ++ dues path.now.conj.rows due.old) }
    ensures entries { OnOk result (AreEntries path.now.conj.rows due.new) }
{
    match next_of(&classes) {
        None => Ok(()),
        Some(next) => put_behind(due, path, classes, &next),
    }
}

/// The path of the first of some classes. Those behind it are put onto what is due.
pub(crate) fn first_class(
    alloc: Global,
    path: Path,
    classes: Classes,
    due: &mut Items<Entry>,
) -> Result<Path, AllocError>
    requires made { IsWellMade path.conj }
    requires classes { AreClasses path.conj.columns classes }
    requires entries { AreEntries path.conj.rows due.old }
    ensures value { IfOk result (λ next. PlanAt next ∷ dues next.conj.rows due.new ≡ classes_of path classes ++ dues path.conj.rows due.old) }
    ensures entries { IfOk result (λ next. AreEntries next.conj.rows due.new) }
{
    let row = row_of_first(alloc, path.conj.columns, &classes)?;
    put_further(due, &path, classes)?;
    longer(path, row)
}
