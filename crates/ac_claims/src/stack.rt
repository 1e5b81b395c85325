//! What is due in a plan under way.
ghost use Rattle.std.specs.Prelude.{◌≡◌, ◌≢◌, ◌↔◌, ◌∷◌, [], ◌++◌, IfOk, IsTrue, OnOk, OnErr};
ghost use Rattle.std.specs.List.{AllByRecursion};
ghost use Rattle.ac_forms.specs.Rows.{IsWellMade};
ghost use Rattle.ac_cert.specs.Rules.{with_row};
ghost use Rattle.ac_claims_paths.specs.ModelCalls.{pairing};
ghost use Rattle.ac_claims_paths.specs.WellFormedPaths.{HasModuli, IsFormed};
ghost use Rattle.ac_claims_paths.specs.PathSteps.{at_rows};
ghost use Rattle.ac_claims.specs.Dues.{AreDueFormed, LineHasModuli, RowsHaveModuli, Answers};
ghost use Rattle.ac_claims.specs.StackEntries.{AreClasses, AreEntries, HasDues, IsOngoing, Settles, SettlesAll, all_dues, branches_of, classes_of, due_at, dues};
ghost use Rattle.ac_claims.specs.Machine.{PlanAt, take_item};

use crate::cases::first_branch;
use crate::classes::first_class;
pub use crate::entry::Refusal;
use crate::entry::{Awaited, Classes, Entry, Line, Ongoing, TakeStop};
use crate::item::Item;
use crate::kills::choose;
use crate::parts::{longer, path_at, push_at};
use crate::taking::take_at;
use crate::types::Claim;
use ac_base::Items;
use ac_claims_paths::NormalForms;
use ac_claims_paths::path::{Branch, Path, Programs};
use ac_forms::Row;
use std::alloc::{AllocError, Global};
use std::marker::Model;

/// What is due in a plan under way. Contracts see it as a list: the paths at which plans are still to come, the next one
/// first, and a copy whose choices are still to come.
///
/// The paths of a plan share their rows, which are held once: so what is held grows by the lines that were taken, and
/// neither a branch nor a step of the pair copies a row.
#[derive(Drop)]
pub struct Stack {
    alloc: Global,
    ongoing: Items<Ongoing>,
    /// The normal forms of the rows of the last path that ended.
    forms: NormalForms,
}

impl Model for Stack {
    ghost use Rattle.std.specs.Prelude.{List};
    ghost use Rattle.std.specs.List.{AllByRecursion};
    ghost use Rattle.ac_claims.specs.StackEntries.{IsOngoing, all_dues};
    ghost use Rattle.ac_claims.specs.Machine.{Due};

    ghost Value = { List Due };

    ghost view = { λ stack. all_dues stack.ongoing };

    ghost invariant = { λ stack. AllByRecursion IsOngoing stack.ongoing };
}

impl Stack {
    /// Nothing is due.
    pub fn new(alloc: Global) -> Stack
        ensures { result ≡ [] }
    {
        Stack {
            alloc,
            ongoing: Items::new(alloc),
            forms: NormalForms::new(alloc),
        }
    }

    /// Whether nothing is due.
    pub fn is_empty(&self) -> bool
        ensures { IsTrue result ↔ (self.now ≡ []) }
    {
        self.ongoing.is_empty()
    }

    /// A plan is due at a path, before what was due. After want of memory what was due is due.
    pub fn open(&mut self, path: Path) -> Result<(), AllocError>
        ensures ok { OnOk result (self.new ≡ PlanAt path ∷ self.old) }
        ensures err { OnErr result (self.new ≡ self.old) }
    {
        let plan = opened(self.alloc, path)?;
        self.ongoing.push(plan)?;
        Ok(())
    }

    /// Takes an item of a plan, whose line has the number `line`, and answers whether it is refused. What is due then is what
    /// the machine of the definition comes to; an item that is none of a plan leaves it, and so does any item where
    /// nothing is due. Behind a refusal nothing is due. After want of memory it is not told what is due.
    pub fn take(
        &mut self,
        alloc: Global,
        programs: &Programs,
        claims: &[Claim],
        item: &Item,
        line: u64,
    ) -> Result<Option<Refusal>, AllocError>
        requires left { HasModuli programs.now.left.now }
        requires right { HasModuli programs.now.right.now }
        requires claims { RowsHaveModuli claims.now }
        requires formed { AreDueFormed programs.now.left.now.params self.old }
        ensures exact { Answers (take_item (pairing programs.now) claims.now item.now line self.old) self.new result }
        ensures formed { AreDueFormed programs.now.left.now.params self.new }
    {
        let line = Line {
            alloc,
            programs,
            claims,
            item,
            number: line,
        };
        match take_last(&line, &mut self.forms, &mut self.ongoing) {
            Ok(()) => Ok(None),
            Err(TakeStop::Refused(refusal)) => {
                self.ongoing = Items::new(alloc);
                Ok(Some(refusal))
            }
            Err(TakeStop::Memory(want)) => {
                self.ongoing = Items::new(alloc);
                Err(want)
            }
        }
    }
}

/// A plan that is due at a path, and nothing else.
fn opened(alloc: Global, path: Path) -> Result<Ongoing, AllocError>
    ensures value { IfOk result (λ plan. dues plan.rows plan.entries ≡ PlanAt path ∷ []) }
    ensures ongoing { IfOk result (λ plan. IsOngoing plan) }
{
    let mut entries = Items::new(alloc);
    push_at(&mut entries, &path, Awaited::Plan)?;
    Ok(Ongoing {
        rows: path.conj.rows,
        entries,
    })
}

/// Takes an item in the last of some plans under way.
fn take_last(
    line: &Line,
    forms: &mut NormalForms,
    ongoing: &mut Items<Ongoing>,
) -> Result<(), TakeStop>
    requires line { LineHasModuli line.now }
    requires formed { AreDueFormed line.now.programs.now.left.now.params (all_dues ongoing.old) }
    requires ongoing { AllByRecursion IsOngoing ongoing.old }
    ensures settles { SettlesAll (take_item (pairing line.now.programs.now) line.now.claims.now line.now.item.now line.now.number (all_dues ongoing.old)) ongoing.new result }
    ensures ongoing { OnOk result (AllByRecursion IsOngoing ongoing.new) }
{
    let Some(plan) = ongoing.pop() else {
        return Ok(());
    };
    let Ongoing { rows, entries } = plan;
    let mut entries = entries;
    match advance(line, rows, forms, &mut entries) {
        Ok(rows) => {
            keep(ongoing, rows, entries)?;
            Ok(())
        }
        Err(stop) => Err(stop),
    }
}

/// Puts a plan under way behind others, if something is due in it.
fn keep(
    ongoing: &mut Items<Ongoing>,
    rows: Items<Row>,
    entries: Items<Entry>,
) -> Result<(), AllocError>
    requires entries { AreEntries rows entries }
    requires ongoing { AllByRecursion IsOngoing ongoing.old }
    ensures dues { OnOk result (all_dues ongoing.new ≡ dues rows entries ++ all_dues ongoing.old) }
    ensures ongoing { OnOk result (AllByRecursion IsOngoing ongoing.new) }
{
    if entries.is_empty() {
        return Ok(());
    }
    ongoing.push(Ongoing { rows, entries })?;
    Ok(())
}

/// Takes an item where the next plan or copy is due. Gives the rows of the path that is under way then.
fn advance(
    line: &Line,
    rows: Items<Row>,
    forms: &mut NormalForms,
    due: &mut Items<Entry>,
) -> Result<Items<Row>, TakeStop>
    requires line { LineHasModuli line.now }
    requires formed { AreDueFormed line.now.programs.now.left.now.params (dues rows due.old) }
    requires entries { AreEntries rows due.old }
    ensures { Settles (take_item (pairing line.now.programs.now) line.now.claims.now line.now.item.now line.now.number (dues rows due.old)) due.new result }
{
    match due.pop() {
        Some(entry) => {
            let path = path_at(rows, &entry.prefix);
            take_entry(line, path, entry.awaited, forms, due)
        }
        None => Ok(rows),
    }
}

/// Takes an item where something is due at a path.
fn take_entry(
    line: &Line,
    path: Path,
    awaited: Awaited,
    forms: &mut NormalForms,
    due: &mut Items<Entry>,
) -> Result<Items<Row>, TakeStop>
    requires line { LineHasModuli line.now }
    requires formed { AreDueFormed line.now.programs.now.left.now.params (due_at path awaited) }
    requires some { HasDues path.conj.columns awaited }
    requires entries { AreEntries path.conj.rows due.old }
    ensures { Settles (take_item (pairing line.now.programs.now) line.now.claims.now line.now.item.now line.now.number (due_at path awaited ++ dues path.conj.rows due.old)) due.new result }
{
    match awaited {
        Awaited::Plan => take_at(line, path, forms, due),
        Awaited::Side(row) => take_side(line, path, row, forms, due),
        Awaited::Classes(classes) => take_class(line, path, classes, forms, due),
        Awaited::Branches(left) => take_branch(line, path, left, forms, due),
        Awaited::Choosing(choosing) => choose(line, path, choosing, forms, due),
    }
}

/// Takes an item where the path has one row more.
fn take_side(
    line: &Line,
    path: Path,
    row: Row,
    forms: &mut NormalForms,
    due: &mut Items<Entry>,
) -> Result<Items<Row>, TakeStop>
    requires line { LineHasModuli line.now }
    requires made { IsWellMade (with_row path.conj row) }
    requires entries { AreEntries path.conj.rows due.old }
    ensures { Settles (take_item (pairing line.now.programs.now) line.now.claims.now line.now.item.now line.now.number (PlanAt (at_rows path (with_row path.conj row)) ∷ dues path.conj.rows due.old)) due.new result }
{
    let path = longer(path, row)?;
    take_at(line, path, forms, due)
}

/// Takes an item at the first of some classes.
fn take_class(
    line: &Line,
    path: Path,
    classes: Classes,
    forms: &mut NormalForms,
    due: &mut Items<Entry>,
) -> Result<Items<Row>, TakeStop>
    requires line { LineHasModuli line.now }
    requires path { IsFormed line.now.programs.now.left.now.params path }
    requires classes { AreClasses path.conj.columns classes }
    requires entries { AreEntries path.conj.rows due.old }
    ensures { Settles (take_item (pairing line.now.programs.now) line.now.claims.now line.now.item.now line.now.number (classes_of path classes ++ dues path.conj.rows due.old)) due.new result }
{
    let next = first_class(line.alloc, path, classes, due)?;
    take_at(line, next, forms, due)
}

/// Takes an item at the first of some branches.
fn take_branch(
    line: &Line,
    path: Path,
    left: Items<Branch>,
    forms: &mut NormalForms,
    due: &mut Items<Entry>,
) -> Result<Items<Row>, TakeStop>
    requires line { LineHasModuli line.now }
    requires formed { AreDueFormed line.now.programs.now.left.now.params (branches_of path left) }
    requires some { left ≢ [] }
    requires entries { AreEntries path.conj.rows due.old }
    ensures { Settles (take_item (pairing line.now.programs.now) line.now.claims.now line.now.item.now line.now.number (branches_of path left ++ dues path.conj.rows due.old)) due.new result }
{
    let next = first_branch(path, left, due)?;
    take_at(line, next, forms, due)
}
