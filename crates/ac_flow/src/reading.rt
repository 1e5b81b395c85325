//! The cases of one read or output.
ghost use Rattle.std.specs.Prelude.{◌≡◌, ◌≤◌, ◌++◌, ◌-◌, length, None, OnOk, IfOk, IfErr};
ghost use Rattle.std.specs.List.{flat_map};
ghost use Rattle.ac_flow.specs.FlowCases.{seen, CanRead, AreCases, conjs_of};
ghost use Rattle.ac_flow.specs.CaseOverflow.{AreTooMany};
ghost use Rattle.ac_flow.specs.Readers.{flow_stop_of, IsFlowOf, StopsAt};
ghost use Rattle.ac_flow.specs.FlowStops.{UnlessMemory, ReadStops};
ghost use Rattle.ac_flow.specs.CaseStops.{plain, IfFilled};
ghost use Rattle.ac_flow.specs.Writings.{writings};

use crate::cases::Reader;
use crate::casing::{initial_case, source_case};
use crate::cutting::{push_conjs, push_group};
use crate::stop::CaseStop;
use crate::types::{Case, FlowStop, ReadFlow};
use crate::writings::writings;
use ac_base::Items;
use ac_forms::Conj;
use ac_poly::types::Model;
use ac_syntax::tree::Position;
use std::alloc::{AllocError, Global};

/// How many pieces of one read or output are kept at most.
const MOST: usize = 4096;

/// Adds what is left of several cases.
fn push_cases(kept: &mut Items<Conj>, cases: Items<Case>) -> Result<(), AllocError>
    ensures { OnOk result (kept.new ≡ kept.old ++ flat_map conjs_of cases) }
{
    for case in cases.into_vec() {
        let Case { pieces, .. } = case;
        push_conjs(kept, pieces)?;
    }
    Ok(())
}

/// What is left of the cases before, and then the group.
fn joined(alloc: Global, cases: Items<Case>, group: Items<Conj>) -> Result<Items<Conj>, AllocError>
    ensures { IfOk result (λ kept. kept ≡ flat_map conjs_of cases ++ group) }
{
    let mut kept = Items::new(alloc);
    push_cases(&mut kept, cases)?;
    push_group(&mut kept, group)?;
    Ok(kept)
}

/// The stop of a case, with what is left of the cases before it.
fn stopped_behind(alloc: Global, stop: CaseStop, cases: Items<Case>) -> CaseStop
    ensures same { UnlessMemory (plain result) (plain result ≡ plain stop) }
    ensures full { IfFilled result (λ kept. IfFilled stop (λ group. kept ≡ flat_map conjs_of cases ++ group)) }
{
    match stop {
        CaseStop::Full(group) => match joined(alloc, cases, group) {
            Ok(kept) => CaseStop::Full(kept),
            Err(want) => CaseStop::Memory(want),
        },
        CaseStop::Overflow(question) => CaseStop::Overflow(question),
        CaseStop::Spent { question, cost } => CaseStop::Spent { question, cost },
        CaseStop::Memory(want) => CaseStop::Memory(want),
    }
}

/// How many pieces may still be kept behind a case.
fn room_behind(room: usize, case: &Case) -> usize
    ensures { result ≡ room - length case.now.pieces }
{
    room.saturating_sub(case.pieces.len())
}

/// The cases of a read or an output: one for each writing before it, then that of the initial contents.
fn read_cases(
    alloc: Global,
    m: &Model,
    budget: u64,
    reader: &Reader,
) -> Result<Items<Case>, CaseStop>
    requires { CanRead m.now (seen reader.now) }
    ensures cases { IfOk result (AreCases m.now (seen reader.now) (writings m.now reader.now.position reader.now.array None)) }
    ensures stops { IfErr result (λ e. ReadStops budget m.now (seen reader.now) (plain e)) }
    ensures within { IfOk result (λ cases. length (flat_map conjs_of cases) ≤ MOST) }
    ensures full { IfErr result (λ e. IfFilled e (AreTooMany budget m.now (seen reader.now))) }
{
    let before = writings(alloc, m, &reader.position, reader.array, &None)?;
    let sources = before.as_slice();
    let mut cases = Items::new(alloc);
    let mut room = MOST;
    for i in 0..sources.len() {
        match source_case(alloc, m, budget, room, reader, &sources[i]) {
            Ok(case) => {
                room = room_behind(room, &case);
                match cases.push(case) {
                    Ok(()) => {}
                    Err(want) => return Err(CaseStop::Memory(want)),
                }
            }
            Err(stop) => return Err(stopped_behind(alloc, stop, cases)),
        }
    }
    match initial_case(alloc, m, budget, room, reader) {
        Ok(case) => match cases.push(case) {
            Ok(()) => Ok(cases),
            Err(want) => Err(CaseStop::Memory(want)),
        },
        Err(stop) => Err(stopped_behind(alloc, stop, cases)),
    }
}

/// The stop of a read or an output.
fn flow_stop(position: Position, stop: CaseStop) -> FlowStop
    ensures { result ≡ flow_stop_of position stop }
{
    match stop {
        CaseStop::Overflow(question) => FlowStop::Overflow(question),
        CaseStop::Spent { question, cost } => FlowStop::Spent { question, cost },
        CaseStop::Full(kept) => FlowStop::Pieces { position, kept },
        CaseStop::Memory(want) => FlowStop::Memory(want),
    }
}

/// A read or an output with its cases.
pub(crate) fn read_flow(
    alloc: Global,
    m: &Model,
    budget: u64,
    reader: &Reader,
) -> Result<ReadFlow, FlowStop>
    requires { CanRead m.now (seen reader.now) }
    ensures flow { IfOk result (IsFlowOf m.now (seen reader.now)) }
    ensures stops { IfErr result (StopsAt budget m.now (seen reader.now)) }
{
    match read_cases(alloc, m, budget, reader) {
        Ok(cases) => Ok(ReadFlow {
            position: reader.position,
            cases,
        }),
        Err(stop) => Err(flow_stop(reader.position, stop)),
    }
}
