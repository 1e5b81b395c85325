//! Rows whose quotients stand behind further ones.
ghost use Rattle.std.specs.Prelude.{◌≡◌, ◌≤◌, ◌<◌, ◌+◌, ◌-◌, ◌^◌, ◌++◌, map, IfOk, OnOk};
ghost use Rattle.std.specs.List.{range_with_len};
ghost use Rattle.ac_forms.specs.Renaming.{renamed_row, AreDistinct};
ghost use Rattle.ac_sets.specs.SetIntersections.{quotients_from, common};

use ac_base::Items;
use ac_forms::laws::renaming_to_distinct_columns;
use ac_forms::{Conj, FormStop, Row, push_range};
use std::alloc::{AllocError, Global};

/// Where columns go: the visible ones stay, and those behind them, the quotients, stand from one column up to another.
#[tactic(auto, using(crate::proofs::Moving::two_ranges))]
pub(crate) fn quotients_from(
    alloc: Global,
    visible: usize,
    at: usize,
    end: usize,
) -> Result<Items<usize>, AllocError>
    requires behind { visible ≤ at }
    requires within { at ≤ end }
    ensures value { IfOk result (λ made. made ≡ range_with_len 0 visible ++ range_with_len at (end - at)) }
    ensures distinct { IfOk result (λ made. AreDistinct made) }
{
    let mut made = Items::new(alloc);
    push_range(&mut made, 0, visible)?;
    push_range(&mut made, at, end - at)?;
    Ok(made)
}

/// The row among other columns, of which none stands twice.
pub(crate) fn moved_row(alloc: Global, row: &Row, columns: &[usize]) -> Result<Row, AllocError>
    requires { AreDistinct columns.now }
    ensures { IfOk result (λ made. made ≡ renamed_row columns.now row.now) }
{
    renaming_to_distinct_columns(row.form(), columns);
    match row.renamed(alloc, columns) {
        Ok(made) => Ok(made),
        Err(FormStop::Wide) => unreachable!(),
        Err(FormStop::Memory(want)) => Err(want),
    }
}

/// Adds rows among other columns, of which none stands twice.
fn push_moved(
    rows: &mut Items<Row>,
    alloc: Global,
    further: &[Row],
    columns: &[usize],
) -> Result<(), AllocError>
    requires { AreDistinct columns.now }
    ensures { OnOk result (rows.new ≡ rows.old ++ map (renamed_row columns.now) further.now) }
{
    for row in further {
        rows.push(moved_row(alloc, row, columns)?)?;
    }
    Ok(())
}

/// The rows of both conjunctions, over the visible columns, the quotients of the first and those of the second.
#[tactic(auto, using(crate::proofs::Moving::common_is))]
pub(crate) fn common(
    alloc: Global,
    visible: usize,
    first: &Conj,
    second: &Conj,
) -> Result<Conj, AllocError>
    requires first { visible ≤ first.now.columns }
    requires second { visible ≤ second.now.columns }
    ensures { IfOk result (λ made. made ≡ common visible first.now second.now) }
{
    let Some(end) = first.columns.checked_add(second.columns - visible) else {
        return Err(AllocError);
    };
    let columns = quotients_from(alloc, visible, first.columns, end)?;
    let Conj { mut rows, .. } = first.copy(alloc)?;
    push_moved(&mut rows, alloc, second.rows.as_slice(), columns.as_slice())?;
    Ok(Conj { columns: end, rows })
}
