//! Parts of taking an item.
ghost use Rattle.std.specs.Prelude.{◌≡◌, ◌++◌, List, IfOk, OnOk, take};
ghost use Rattle.ac_cert.specs.Rules.{with_row};
ghost use Rattle.ac_forms.specs.Rows.{IsRowOver, IsWellMade};
ghost use Rattle.ac_claims_paths.specs.PathSteps.{at_rows};
ghost use Rattle.ac_claims.specs.StackEntries.{AreEntries, HasDues, Settles, at_line, due_at, dues, path_at, prefix_of};
ghost use Rattle.ac_claims.specs.Machine.{Onto, onto_if};
ghost use Rattle.ac_claims.specs.declared.entry.Entry.{Entry};

use crate::entry::{Awaited, Entry, Prefix, Refusal, TakeStop};
use ac_base::Items;
use ac_cert::{EndStop, Rule, with_row};
use ac_claims_paths::path::Path;
use ac_forms::{Conj, Row};
use std::alloc::AllocError;

/// The stop of a step, a branch or an end, at a line.
pub(crate) fn at_line(stop: EndStop, line: u64) -> TakeStop
    ensures { result ≡ at_line stop line }
{
    match stop {
        EndStop::Refused(rule) => TakeStop::Refused(Refusal { line, rule }),
        EndStop::Memory(want) => TakeStop::Memory(want),
    }
}

/// A path without its rows.
fn prefix_of(path: &Path) -> Prefix
    ensures { result ≡ prefix_of path.now }
{
    Prefix {
        columns: path.conj.columns,
        count: path.conj.rows.len(),
        left: path.left,
        right: path.right,
        gone: path.gone,
        last: path.last,
    }
}

/// The first of some rows. It takes no memory.
fn first_rows(rows: Items<Row>, count: usize) -> Items<Row>
    ensures { result ≡ take count rows }
{
    let mut rows = rows.into_vec();
    rows.truncate(count);
    Items::from(rows)
}

/// The path of an entry: the rows of the path under way are cut back to its own.
pub(crate) fn path_at(rows: Items<Row>, prefix: &Prefix) -> Path
    ensures { result ≡ path_at rows prefix.now }
{
    Path {
        conj: Conj {
            columns: prefix.columns,
            rows: first_rows(rows, prefix.count),
        },
        left: prefix.left,
        right: prefix.right,
        gone: prefix.gone,
        last: prefix.last,
    }
}

/// Puts what is due at the path under way before what was due.
pub(crate) fn push_at(
    due: &mut Items<Entry>,
    path: &Path,
    awaited: Awaited,
) -> Result<(), AllocError>
    requires entries { AreEntries path.now.conj.rows due.old }
    requires due { HasDues path.now.conj.columns awaited }
    ensures dues { OnOk result (dues path.now.conj.rows due.new ≡ due_at path.now awaited ++ dues path.now.conj.rows due.old) }
    ensures entries { OnOk result (AreEntries path.now.conj.rows due.new) }
{
    let prefix = prefix_of(path);
    due.push(Entry { prefix, awaited })?;
    Ok(())
}

/// The same, where nothing else is to be done: gives the rows of the path.
pub(crate) fn awaits(
    due: &mut Items<Entry>,
    path: Path,
    awaited: Awaited,
) -> Result<Items<Row>, TakeStop>
    requires entries { AreEntries path.conj.rows due.old }
    requires due { HasDues path.conj.columns awaited }
    ensures { Settles (Onto (due_at path awaited ++ dues path.conj.rows due.old)) due.new result }
{
    push_at(due, &path, awaited)?;
    Ok(path.conj.rows)
}

/// Refuses a line by a rule, unless a test holds; then the path ends.
pub(crate) fn ends_if(
    holds: bool,
    line: u64,
    rule: Rule,
    path: Path,
) -> Result<Items<Row>, TakeStop>
    ensures { (due : List Entry) → AreEntries path.conj.rows due → Settles (onto_if holds line rule (dues path.conj.rows due)) due result }
{
    if holds {
        Ok(path.conj.rows)
    } else {
        Err(TakeStop::Refused(Refusal { line, rule }))
    }
}

/// The path with one row more, without a copy.
pub(crate) fn longer(path: Path, row: Row) -> Result<Path, AllocError>
    requires made { IsWellMade path.conj }
    requires over { IsRowOver path.conj.columns row }
    ensures { IfOk result (λ longer. longer ≡ at_rows path (with_row path.conj row)) }
{
    let Path {
        conj,
        left,
        right,
        gone,
        last,
    } = path;
    let conj = with_row(conj, row)?;
    Ok(Path {
        conj,
        left,
        right,
        gone,
        last,
    })
}
