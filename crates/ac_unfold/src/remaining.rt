//! The rows of a case over the columns of a question: of what is left of it, and of its kills.
ghost use Rattle.std.specs.Prelude.{◌≡◌, IfOk, None, Some, is_some, true, IfErr};
ghost use Rattle.ac_forms.specs.Renaming.{rows_renaming};
ghost use Rattle.ac_claims_paths.specs.CopyKills.{case_columns};
ghost use Rattle.ac_claims_paths.specs.declared.path.Assumed.{Assumed};
ghost use Rattle.ac_widen_programs.specs.PairPathSteps.{at_rest};
ghost use Rattle.ac_unfold.specs.UnfoldQuestions.{kill_on};
ghost use Rattle.ac_unfold.specs.PlanResults.{judge_of};
ghost use Rattle.ac_unfold.specs.KillTraversal.{AreApart};
ghost use Rattle.ac_unfold.specs.UnfoldStops.{HandsBack};

use crate::decide::{Answer, decide_point};
use crate::ends::Search;
use crate::node::{Node, with_rows};
use crate::types::{UnfoldStop, freely};
use crate::witness::continued;
use ac_base::Items;
use ac_claims_paths::killing::case_columns;
use ac_forms::{Conj, FormStop, Row, push_range, renamed_rows};
use std::alloc::{AllocError, Global};

/// Rows over these columns of a question.
#[tactic(auto, using(ac_claims_paths::proofs::Moduli::rename_steps))]
pub(crate) fn over_columns(
    alloc: Global,
    search: &Search<'_>,
    node: &Node,
    rows: &[Row],
    columns: &[usize],
) -> Result<Items<Row>, UnfoldStop>
    ensures rows { IfOk result (λ made. Some made ≡ rows_renaming columns.now rows.now) }
    ensures causes { IfErr result (HandsBack node.now.question.conj (rows_renaming columns.now rows.now ≡ None)) }
{
    match renamed_rows(alloc, rows, columns) {
        Ok(made) => Ok(made),
        Err(FormStop::Wide) => Err(search.too_wide(alloc, node)),
        Err(FormStop::Memory(want)) => Err(UnfoldStop::Memory(want)),
    }
}

/// A node at what is left of a case: its rows, whose quotients are further columns of the question.
pub(crate) fn at_remainder(
    alloc: Global,
    search: &Search<'_>,
    node: &Node,
    rest: &Conj,
) -> Result<Node, UnfoldStop>
    requires { is_some node.now.question.last ≡ true }
    ensures question { IfOk result (λ made. at_rest (judge_of search.now).params node.now.question rest.now ≡ Some made.question) }
    ensures pair_path { IfOk result (λ made. made.pair_path ≡ node.now.pair_path) }
    ensures causes { IfErr result (HandsBack node.now.question.conj (at_rest (judge_of search.now).params node.now.question rest.now ≡ None)) }
{
    let Some(assumed) = &node.question.last else {
        unreachable!();
    };
    let mut columns = case_columns(alloc, search.params(), assumed)?;
    let further = rest.columns.saturating_sub(columns.len());
    push_range(&mut columns, node.question.conj.columns, further)?;
    let rows = over_columns(
        alloc,
        search,
        node,
        rest.rows.as_slice(),
        columns.as_slice(),
    )?;
    Ok(node.beside(alloc, further, rows.as_slice())?)
}

/// The rows of a kill over the columns of a question.
pub(crate) fn kill_rows(
    alloc: Global,
    search: &Search<'_>,
    node: &Node,
    kill: &Conj,
) -> Result<Items<Row>, UnfoldStop>
    requires { is_some node.now.question.last ≡ true }
    ensures rows { IfOk result (λ made. (a : Assumed) → node.now.question.last ≡ Some a → Some made ≡ rows_renaming (case_columns (judge_of search.now).params a) kill.now.rows) }
    ensures there { IfOk result (λ made. kill_on (judge_of search.now).params node.now.question kill.now ≡ Some made) }
    ensures causes { IfErr result (HandsBack node.now.question.conj (kill_on (judge_of search.now).params node.now.question kill.now ≡ None)) }
{
    let Some(assumed) = &node.question.last else {
        unreachable!();
    };
    let columns = case_columns(alloc, search.params(), assumed)?;
    over_columns(
        alloc,
        search,
        node,
        kill.rows.as_slice(),
        columns.as_slice(),
    )
}

/// Whether rows are known to have no point in common with a question.
pub(crate) fn is_apart(
    alloc: Global,
    search: &Search<'_>,
    node: &Node,
    rows: &[Row],
) -> Result<bool, AllocError>
    ensures { IfOk result (λ apart. apart ≡ true → AreApart node.now.question.conj rows.now) }
{
    let both = with_rows(alloc, &node.question.conj, rows)?;
    if continued(alloc, &both, node.known.as_slice())?.is_some() {
        return Ok(false);
    }
    match freely(decide_point(alloc, &both, search.budget))? {
        Some(Answer::Empty(_)) => Ok(true),
        Some(Answer::Point(_)) | None => Ok(false),
    }
}
