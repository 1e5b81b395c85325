//! The cases of a read or an output, one for each writing before it and one for the initial contents.
ghost use Rattle.std.specs.Prelude.{◌≡◌, ◌+◌, ◌≤◌, [], length, map, IfOk, IfErr, None, Some, option_copied, slice_get};
ghost use Rattle.ac_forms.specs.Rows.{AreRowsOver};
ghost use Rattle.ac_flow.specs.CutStops.{IfFull};
ghost use Rattle.ac_flow.specs.Cuts.{AllHavePoints};
ghost use Rattle.ac_claims_paths.specs.PathSteps.{root};
ghost use Rattle.ac_claims_paths.specs.CopyKills.{case_width, with_own_columns};
ghost use Rattle.ac_flow.specs.FlowCases.{seen, CanRead, IsCaseOf, IsSourceCase, IsInitialCase, conj_of_remainder, conjs_of};
ghost use Rattle.ac_flow.specs.CaseOverflow.{AreCutCasesOf, AreOfWriting};
ghost use Rattle.ac_flow.specs.FlowStops.{CaseStops, SourceStops, UnlessMemory};
ghost use Rattle.ac_flow.specs.CaseStops.{plain, IfFilled};
ghost use Rattle.ac_flow.specs.Writings.{reading};

use crate::case_kills::{found_kills, kills_of};
use crate::cases::{CaseRows, Reader};
use crate::copies::{conj_of, unformed};
use crate::cut::CutStop;
use crate::cutting::cut_pieces;
use crate::stop::CaseStop;
use crate::types::{Case, Remainder};
use crate::writings::writings;
use ac_base::Items;
use ac_claims::types::Kill;
use ac_claims_paths::path::{Assumed, CopyNumbers, Seat, Side};
use ac_forms::{Conj, column_after};
use ac_poly::types::{Model, StmtModel};
use ac_syntax::tree::Position;
use std::alloc::{AllocError, Global};

/// What is assumed for a read or an output: its coordinates stand behind the parameters.
fn reading(m: &Model, reader: &Reader, source: Option<Seat>) -> Assumed
    ensures { result ≡ reading m.now reader.now.position reader.now.count source }
{
    Assumed {
        side: Side::Left,
        reader: Seat {
            position: reader.position,
            first: m.params,
            width: reader.count,
        },
        source,
    }
}

/// What is left of a case, and its kills.
#[derive(Drop)]
struct Parts {
    left: Items<Remainder>,
    kills: Items<(Conj, Kill)>,
}

/// The stop of a search for kills, which keeps nothing.
fn kill_stop(stop: CutStop) -> CaseStop
    requires { IfFull stop ⊥ }
    ensures { plain result ≡ stop }
{
    match stop {
        CutStop::Overflow(question) => CaseStop::Overflow(question),
        CutStop::Spent { question, cost } => CaseStop::Spent { question, cost },
        CutStop::Memory(want) => CaseStop::Memory(want),
        CutStop::Full => unreachable!(),
    }
}

/// What is left of a case in each piece of its reader, with its kills: `own` has the rows of the source over its columns.
fn case_of(
    alloc: Global,
    m: &Model,
    budget: u64,
    room: usize,
    reader: &Reader,
    source: Option<Seat>,
    own: &Conj,
) -> Result<Parts, CaseStop>
    requires read { CanRead m.now (seen reader.now) }
    requires own { reading m.now reader.now.position reader.now.count source ≡ with_own_columns m.now.params (reading m.now reader.now.position reader.now.count source) }
    requires wide { own.now.columns ≡ case_width m.now.params (reading m.now reader.now.position reader.now.count source) }
    requires rows { AreRowsOver own.now.columns own.now.rows }
    ensures case { IfOk result (λ parts. IsCaseOf m.now (seen reader.now) source own.now.columns own.now.rows parts.left parts.kills) }
    ensures stops { IfErr result (λ e. CaseStops budget m.now (seen reader.now) source own.now.columns own.now.rows (plain e)) }
    ensures kept { IfOk result (λ parts. AreCutCasesOf budget m.now (seen reader.now) source own.now.columns own.now.rows (map conj_of_remainder parts.left)) }
    ensures within { IfOk result (λ parts. length parts.left ≤ room) }
    ensures full { IfErr result (λ e. IfFilled e (λ kept. (length kept ≡ room + 1) × AllHavePoints kept × AreCutCasesOf budget m.now (seen reader.now) source own.now.columns own.now.rows kept)) }
{
    let assumed = reading(m, reader, source);
    let copies = writings(alloc, m, &reader.position, reader.array, &assumed.source)?;
    let found = match found_kills(alloc, m, &assumed, copies.as_slice(), budget) {
        Ok(found) => found,
        Err(stop) => return Err(kill_stop(stop)),
    };
    let case = CaseRows {
        own,
        kills: found.as_slice(),
    };
    let left = match cut_pieces(alloc, m, budget, room, &case, reader.pieces) {
        Ok(left) => left,
        Err(stop) => return Err(stop),
    };
    let kills = kills_of(alloc, own.columns, copies.as_slice(), found.as_slice())?;
    Ok(Parts { left, kills })
}

/// The root of an assignment, with its coordinates in the columns from one on.
fn root(first: usize, u: usize, stmt: &StmtModel) -> Seat
    ensures { result ≡ root first u stmt.now }
{
    Seat {
        position: Position::Node { stmt: u, node: 0 },
        first,
        width: ac_poly::width(stmt),
    }
}

/// The assignment with a number.
fn stmt_of<'a>(m: &'a Model, u: usize) -> Option<&'a StmtModel>
    ensures { option_copied result ≡ slice_get m.now.stmts u }
{
    m.stmts.as_slice().get(u)
}

/// The case of a writing before the reader.
pub(crate) fn source_case(
    alloc: Global,
    m: &Model,
    budget: u64,
    room: usize,
    reader: &Reader,
    numbers: &CopyNumbers,
) -> Result<Case, CaseStop>
    requires read { CanRead m.now (seen reader.now) }
    ensures case { IfOk result (IsSourceCase m.now (seen reader.now) numbers.now) }
    ensures stops { IfErr result (λ e. UnlessMemory (plain e) (SourceStops budget m.now (seen reader.now) numbers.now (plain e))) }
    ensures kept { IfOk result (λ case. AreOfWriting budget m.now (seen reader.now) numbers.now (conjs_of case)) }
    ensures within { IfOk result (λ case. length case.pieces ≤ room) }
    ensures full { IfErr result (λ e. IfFilled e (λ kept. (length kept ≡ room + 1) × AllHavePoints kept × AreOfWriting budget m.now (seen reader.now) numbers.now kept)) }
{
    let alone = reading(m, reader, None);
    let Some(own) = conj_of(alloc, m, &alone, numbers)? else {
        return Err(kill_stop(unformed(alloc, m, &alone, numbers)));
    };
    let Some(stmt) = stmt_of(m, numbers.stmt) else {
        unreachable!()
    };
    let source = root(column_after(m.params, reader.count)?, numbers.stmt, stmt);
    match case_of(alloc, m, budget, room, reader, Some(source), &own) {
        Ok(parts) => Ok(Case {
            source: Some(numbers.stmt),
            piece: numbers.piece,
            level: numbers.before,
            pieces: parts.left,
            kills: parts.kills,
        }),
        Err(stop) => Err(stop),
    }
}

/// The case of the initial contents.
pub(crate) fn initial_case(
    alloc: Global,
    m: &Model,
    budget: u64,
    room: usize,
    reader: &Reader,
) -> Result<Case, CaseStop>
    requires read { CanRead m.now (seen reader.now) }
    ensures case { IfOk result (IsInitialCase m.now (seen reader.now)) }
    ensures stops { IfErr result (λ e. CaseStops budget m.now (seen reader.now) None (m.now.params + reader.now.count) [] (plain e)) }
    ensures within { IfOk result (λ case. length case.pieces ≤ room) }
    ensures full { IfErr result (λ e. IfFilled e (λ kept. (length kept ≡ room + 1) × AllHavePoints kept × AreCutCasesOf budget m.now (seen reader.now) None (m.now.params + reader.now.count) [] kept)) }
{
    let columns = column_after(m.params, reader.count)?;
    let rows = Items::new(alloc);
    let own = Conj { columns, rows };
    match case_of(alloc, m, budget, room, reader, None, &own) {
        Ok(parts) => Ok(Case {
            source: None,
            piece: 0,
            level: 0,
            pieces: parts.left,
            kills: parts.kills,
        }),
        Err(stop) => Err(stop),
    }
}
