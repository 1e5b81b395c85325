//! The schedule that a text spells.
ghost use Rattle.std.specs.Prelude.{◌≡◌, ◌≤◌, ◌<◌, ◌+◌, ◌^◌, ◌++◌, ◌∷◌, [], ℕ, List, map, drop, length, replicate, IfOk, IfErr};
ghost use Rattle.ac_forms.specs.Affine.{Affine};
ghost use Rattle.ac_legal_text.specs.LineKinds.{Kind, FailsAt, HasFault, assign, time, kinds_from};
ghost use Rattle.ac_legal_text.specs.OrderAnswers.{IfLine};
ghost use Rattle.ac_legal_text.specs.OrderTexts.{AreTimes, AreTimesOver, Spells, assign_line, assignment_lines, columns_of, end_line, text_of, time_line};

use crate::heads::{behind_assign, read_end, read_head};
use crate::times::push_time;
use crate::types::OrderFault;
use ac_base::Items;
use ac_forms::{Form, column_after};
use ac_legal::types::Schedule;
use ac_poly::types::Model;
use std::alloc::{AllocError, Global};

/// Adds the forms of so many lines `time F`, behind so many lines of the text, and gives what stands behind them.
fn read_times<'a>(
    alloc: Global,
    text: &'a [u8],
    before: u64,
    left: usize,
    columns: usize,
    forms: &mut Items<Form>,
) -> Result<&'a [u8], OrderFault>
    requires { before + length text.now + 1 < 2 ^ 64 }
    ensures times { IfOk result (λ rest. (fs : List Affine) × (forms.new ≡ forms.old ++ fs) × AreTimesOver left columns fs × (text.now ≡ text_of (map time_line fs) ++ rest.now)) }
    ensures fault { (more : List Kind) → IfErr result (λ fault. IfLine fault (FailsAt (replicate left (time columns) ++ more) text.now before)) }
{
    if left == 0 {
        return Ok(text);
    }
    let Some(rest) = push_time(alloc, text, columns, forms)? else {
        return Err(OrderFault::Line(before + 1));
    };
    read_times(alloc, rest, before + 1, left - 1, columns, forms)
}

/// Adds the forms of an assignment, and gives what stands behind its lines.
fn read_assignment<'a>(
    alloc: Global,
    text: &'a [u8],
    before: u64,
    number: usize,
    levels: usize,
    columns: usize,
    forms: &mut Items<Form>,
) -> Result<&'a [u8], OrderFault>
    requires { before + length text.now + 1 < 2 ^ 64 }
    ensures times { IfOk result (λ rest. (fs : List Affine) × (forms.new ≡ forms.old ++ fs) × AreTimesOver levels columns fs × (text.now ≡ text_of (assign_line number ∷ map time_line fs) ++ rest.now)) }
    ensures fault { (more : List Kind) → IfErr result (λ fault. IfLine fault (FailsAt (assign number ∷ (replicate levels (time columns) ++ more)) text.now before)) }
{
    let Some(rest) = behind_assign(text, number) else {
        return Err(OrderFault::Line(before + 1));
    };
    read_times(alloc, rest, before + 1, levels, columns, forms)
}

/// How many columns the forms of an assignment have: the parameters and its counters.
fn columns_at(m: &Model, number: usize) -> Result<usize, AllocError>
    requires { number < length m.now.stmts }
    ensures { IfOk result (λ columns. drop number (columns_of m.now) ≡ columns ∷ drop (number + 1) (columns_of m.now)) }
{
    let stmts = m.stmts.as_slice();
    column_after(m.params, stmts[number].loops.len())
}

/// Adds the forms of the assignments from one number on, up to the end of the text.
fn read_assignments(
    alloc: Global,
    m: &Model,
    levels: usize,
    text: &[u8],
    before: u64,
    number: usize,
    times: &mut Items<Items<Form>>,
) -> Result<(), OrderFault>
    requires within { number ≤ length m.now.stmts }
    requires room { before + length text.now + 1 < 2 ^ 64 }
    ensures times { IfOk result (λ _. (ts : List (List Affine)) × (times.new ≡ times.old ++ ts) × AreTimes levels (drop number (columns_of m.now)) ts × (text.now ≡ text_of (assignment_lines number ts ++ end_line ∷ []))) }
    ensures fault { IfErr result (λ fault. IfLine fault (FailsAt (kinds_from levels number (drop number (columns_of m.now))) text.now before)) }
{
    if number == m.stmts.len() {
        return read_end(text, before);
    }
    let columns = columns_at(m, number)?;
    let mut forms = Items::new(alloc);
    match read_assignment(alloc, text, before, number, levels, columns, &mut forms) {
        Ok(rest) => {
            times.push(forms)?;
            let behind = before + 1 + levels as u64;
            read_assignments(alloc, m, levels, rest, behind, number + 1, times)
        }
        Err(fault) => Err(fault),
    }
}

/// The schedule of a model that a text spells; else the first line that is missing, malformed or further.
///
/// A time has from 1 to 13 numbers. Each is a form over the parameters and the counters of its assignment, with numbers of at
/// most 2^31 in absolute value. It is kept with a coefficient for each of these columns. Lines are counted from 1.
pub fn read_order(alloc: Global, bytes: &[u8], m: &Model) -> Result<Schedule, OrderFault>
    ensures spelled { IfOk result (λ order. Spells m.now bytes.now order.times) }
    ensures fault { IfErr result (λ fault. IfLine fault (HasFault m.now bytes.now)) }
{
    let _room = bytes.len() + 1;
    let Some((levels, rest)) = read_head(bytes) else {
        return Err(OrderFault::Line(1));
    };
    let mut times = Items::new(alloc);
    match read_assignments(alloc, m, levels, rest, 1, 0, &mut times) {
        Ok(()) => Ok(Schedule { times }),
        Err(fault) => Err(fault),
    }
}
