//! What an item comes to where a plan is due at a path.
ghost use Rattle.std.specs.Prelude.{List};
ghost use Rattle.ac_forms.specs.Rows.{IsWellMade};
ghost use Rattle.ac_claims_paths.specs.ModelCalls.{pairing};
ghost use Rattle.ac_claims_paths.specs.OptionalRows.{HaveIf};
ghost use Rattle.ac_claims_paths.specs.PathRows.{made_and_stand};
ghost use Rattle.ac_claims.specs.Dues.{LineHasModuli};
ghost use Rattle.ac_claims.specs.StackEntries.{AreEntries, Settles, dues};
ghost use Rattle.ac_claims.specs.Machine.{onto_if, take_at};
ghost use Rattle.ac_claims.specs.declared.entry.Entry.{Entry};
ghost use Rattle.ac_claims.specs.declared.item.Item.TheVariants as item;

use crate::cases::take_go;
use crate::classes::take_residue;
use crate::ending::{equal_cells, equal_numbers, is_hit};
use crate::entry::{Awaited, Entry, Line, TakeStop};
use crate::item::Item;
use crate::kills::take_killed;
use crate::parts::{at_line, awaits, ends_if, longer, push_at};
use ac_base::Items;
use ac_cert::types::Step;
use ac_cert::{Absurd, End, Rule, apply_onto, rows_of_sides};
use ac_claims_paths::NormalForms;
use ac_claims_paths::path::{CopyNumbers, Path};
use ac_claims_paths::standing::made_and_stand;
use ac_forms::{Form, Row};

/// A step.
fn take_step(
    line: &Line,
    step: &Step,
    path: Path,
    due: &mut Items<Entry>,
) -> Result<Items<Row>, TakeStop>
    requires made { IsWellMade path.conj }
    requires entries { AreEntries path.conj.rows due.old }
    ensures { Settles (take_at (pairing line.now.programs.now) line.now.claims.now (item.Step step.now) line.now.number path (dues path.conj.rows due.old)) due.new result }
{
    let Path {
        conj,
        left,
        right,
        gone,
        last,
    } = path;
    match apply_onto(line.alloc, conj, step) {
        Ok(conj) => {
            let next = Path {
                conj,
                left,
                right,
                gone,
                last,
            };
            awaits(due, next, Awaited::Plan)
        }
        Err(stop) => Err(at_line(stop, line.number)),
    }
}

/// A branch by the sign of a form. The second side is due behind the first one.
fn take_split(
    line: &Line,
    form: &Form,
    path: Path,
    due: &mut Items<Entry>,
) -> Result<Items<Row>, TakeStop>
    requires made { IsWellMade path.conj }
    requires entries { AreEntries path.conj.rows due.old }
    ensures { Settles (take_at (pairing line.now.programs.now) line.now.claims.now (item.Split form.now) line.now.number path (dues path.conj.rows due.old)) due.new result }
{
    match rows_of_sides(line.alloc, form, path.conj.columns) {
        Ok((low, high)) => {
            push_at(due, &path, Awaited::Side(high))?;
            let first = longer(path, low)?;
            awaits(due, first, Awaited::Plan)
        }
        Err(stop) => Err(at_line(stop, line.number)),
    }
}

/// An end at a row that no point meets.
fn take_absurd(line: &Line, row: usize, path: Path) -> Result<Items<Row>, TakeStop>
    requires { IsWellMade path.conj }
    ensures { (due : List Entry) → AreEntries path.conj.rows due → Settles (take_at (pairing line.now.programs.now) line.now.claims.now (item.Absurd row) line.now.number path (dues path.conj.rows due)) due result }
{
    let end = Absurd { row };
    match end.check(line.alloc, &(), &path.conj) {
        Ok(()) => Ok(path.conj.rows),
        Err(stop) => Err(at_line(stop, line.number)),
    }
}

/// An end at a claim.
fn take_hit(
    line: &Line,
    claim: usize,
    path: Path,
    forms: &mut NormalForms,
) -> Result<Items<Row>, TakeStop>
    requires path { IsWellMade path.conj }
    requires line { LineHasModuli line.now }
    ensures { (due : List Entry) → AreEntries path.conj.rows due → Settles (take_at (pairing line.now.programs.now) line.now.claims.now (item.Hit claim) line.now.number path (dues path.conj.rows due)) due result }
{
    let holds = is_hit(line.alloc, line.programs, line.claims, claim, &path, forms)?;
    ends_if(holds, line.number, Rule::Hit, path)
}

/// An end where some rows stand on the path, if they were made.
fn ends_where(
    line: &Line,
    rule: Rule,
    rows: &Option<Items<Row>>,
    path: Path,
    forms: &mut NormalForms,
) -> Result<Items<Row>, TakeStop>
    requires path { IsWellMade path.conj }
    requires rows { HaveIf rows.now }
    ensures { (due : List Entry) → AreEntries path.conj.rows due → Settles (onto_if (made_and_stand path.conj.rows rows.now) line.now.number rule (dues path.conj.rows due)) due result }
{
    let holds = made_and_stand(line.alloc, path.conj.rows.as_slice(), rows, forms)?;
    ends_if(holds, line.number, rule, path)
}

/// An end at two equal numbers.
fn take_number(line: &Line, path: Path, forms: &mut NormalForms) -> Result<Items<Row>, TakeStop>
    requires { IsWellMade path.conj }
    ensures { (due : List Entry) → AreEntries path.conj.rows due → Settles (take_at (pairing line.now.programs.now) line.now.claims.now item.Number line.now.number path (dues path.conj.rows due)) due result }
{
    let rows = equal_numbers(line.alloc, line.programs, &path)?;
    ends_where(line, Rule::Number, &rows, path, forms)
}

/// An end at one initial cell of an input.
fn take_initial(line: &Line, path: Path, forms: &mut NormalForms) -> Result<Items<Row>, TakeStop>
    requires { IsWellMade path.conj }
    ensures { (due : List Entry) → AreEntries path.conj.rows due → Settles (take_at (pairing line.now.programs.now) line.now.claims.now item.Initial line.now.number path (dues path.conj.rows due)) due result }
{
    let rows = equal_cells(line.alloc, line.programs, &path)?;
    ends_where(line, Rule::Initial, &rows, path, forms)
}

/// An item at a path where a plan is due; one that is none of a plan leaves what is due. Gives the rows of the path that is
/// under way then.
pub(crate) fn take_at(
    line: &Line,
    path: Path,
    forms: &mut NormalForms,
    due: &mut Items<Entry>,
) -> Result<Items<Row>, TakeStop>
    requires line { LineHasModuli line.now }
    requires made { IsWellMade path.conj }
    requires entries { AreEntries path.conj.rows due.old }
    ensures { Settles (take_at (pairing line.now.programs.now) line.now.claims.now line.now.item.now line.now.number path (dues path.conj.rows due.old)) due.new result }
{
    match line.item {
        Item::Step(step) => take_step(line, step, path, due),
        Item::Split(form) => take_split(line, form, path, due),
        Item::Residue(modulus, form) => take_residue(line, modulus, form, path, due),
        Item::Go { order, cases } => take_go(line, *order, *cases, path, due),
        Item::Absurd(row) => take_absurd(line, *row, path),
        Item::Hit(claim) => take_hit(line, *claim, path, forms),
        Item::Number => take_number(line, path, forms),
        Item::Initial => take_initial(line, path, forms),
        Item::Killed {
            stmt,
            piece,
            after,
            before,
            choices,
        } => {
            let numbers = CopyNumbers {
                stmt: *stmt,
                piece: *piece,
                after: *after,
                before: *before,
            };
            take_killed(line, &numbers, *choices, path, forms, due)
        }
        _ => awaits(due, path, Awaited::Plan),
    }
}
