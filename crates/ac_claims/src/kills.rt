//! Places that copies are to kill.
ghost use Rattle.ac_forms.specs.Rows.{IsWellMade};
ghost use Rattle.ac_claims_paths.specs.ModelCalls.{pairing};
ghost use Rattle.ac_claims.specs.Dues.{LineHasModuli};
ghost use Rattle.ac_claims.specs.StackEntries.{AreEntries, Settles, dues};
ghost use Rattle.ac_claims.specs.Machine.{choose, settled, take_at};
ghost use Rattle.ac_claims.specs.declared.item.Item.TheVariants as item;

use crate::entry::{Awaited, Choosing, Entry, Line, Refusal, TakeStop};
use crate::item::Item;
use crate::parts::{awaits, ends_if};
use ac_base::Items;
use ac_cert::Rule;
use ac_claims_paths::NormalForms;
use ac_claims_paths::copies::copy_of;
use ac_claims_paths::killing::{case_width, chosen, is_killed};
use ac_claims_paths::path::{CopyNumbers, Path};
use ac_forms::Row;
use ac_omega_steps::Choice;

/// A copy with some choices to come; without any it is to kill what was assumed.
fn settle(
    line: &Line,
    path: Path,
    choosing: Choosing,
    forms: &mut NormalForms,
    due: &mut Items<Entry>,
) -> Result<Items<Row>, TakeStop>
    requires path { IsWellMade path.conj }
    requires copy { IsWellMade choosing.copy }
    requires entries { AreEntries path.conj.rows due.old }
    ensures { Settles (settled line.now.programs.now.left.now.params choosing.line choosing.left path choosing.assumed choosing.copy (dues path.conj.rows due.old)) due.new result }
{
    if choosing.left > 0 {
        return awaits(due, path, Awaited::Choosing(choosing));
    }
    let killed = is_killed(
        line.alloc,
        line.programs.left.params,
        path.conj.rows.as_slice(),
        &choosing.assumed,
        &choosing.copy,
        forms,
    )?;
    ends_if(killed, choosing.line, Rule::Killed, path)
}

/// An end at a place that a copy is to kill.
pub(crate) fn take_killed(
    line: &Line,
    numbers: &CopyNumbers,
    choices: usize,
    path: Path,
    forms: &mut NormalForms,
    due: &mut Items<Entry>,
) -> Result<Items<Row>, TakeStop>
    requires line { LineHasModuli line.now }
    requires path { IsWellMade path.conj }
    requires entries { AreEntries path.conj.rows due.old }
    ensures { Settles (take_at (pairing line.now.programs.now) line.now.claims.now (item.Killed numbers.now.stmt numbers.now.piece numbers.now.after numbers.now.before choices) line.now.number path (dues path.conj.rows due.old)) due.new result }
{
    let refusal = Refusal {
        line: line.number,
        rule: Rule::Killed,
    };
    let Some(assumed) = path.last else {
        return Err(TakeStop::Refused(refusal));
    };
    let Some(copy) = copy_of(line.alloc, line.programs, &assumed, numbers)? else {
        return Err(TakeStop::Refused(refusal));
    };
    let choosing = Choosing {
        line: line.number,
        left: choices,
        assumed,
        copy,
    };
    settle(line, path, choosing, forms, due)
}

/// A choice of a copy.
fn take_choice(
    line: &Line,
    choice: &Choice,
    path: Path,
    choosing: Choosing,
    forms: &mut NormalForms,
    due: &mut Items<Entry>,
) -> Result<Items<Row>, TakeStop>
    requires path { IsWellMade path.conj }
    requires copy { IsWellMade choosing.copy }
    requires entries { AreEntries path.conj.rows due.old }
    ensures { Settles (choose line.now.programs.now.left.now.params (item.Choice choice.now) line.now.number choosing.line choosing.left path choosing.assumed choosing.copy (dues path.conj.rows due.old)) due.new result }
{
    let Choosing {
        line: first,
        left,
        assumed,
        copy,
    } = choosing;
    let own = case_width(line.programs.left.params, &assumed)?;
    let Some(copy) = chosen(line.alloc, path.conj.columns, own, choice, &copy)? else {
        return Err(TakeStop::Refused(Refusal {
            line: line.number,
            rule: Rule::Killed,
        }));
    };
    let behind = Choosing {
        line: first,
        left: left.saturating_sub(1),
        assumed,
        copy,
    };
    settle(line, path, behind, forms, due)
}

/// An item where a choice of a copy is due; one that is no choice leaves what is due.
pub(crate) fn choose(
    line: &Line,
    path: Path,
    choosing: Choosing,
    forms: &mut NormalForms,
    due: &mut Items<Entry>,
) -> Result<Items<Row>, TakeStop>
    requires path { IsWellMade path.conj }
    requires copy { IsWellMade choosing.copy }
    requires entries { AreEntries path.conj.rows due.old }
    ensures { Settles (choose line.now.programs.now.left.now.params line.now.item.now line.now.number choosing.line choosing.left path choosing.assumed choosing.copy (dues path.conj.rows due.old)) due.new result }
{
    match line.item {
        Item::Choice(choice) => take_choice(line, choice, path, choosing, forms, due),
        _ => awaits(due, path, Awaited::Choosing(choosing)),
    }
}
