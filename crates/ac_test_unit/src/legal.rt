//! Whether schedules keep the order of small programs. The answers were worked out by hand.
ghost use Rattle.std.specs.Prelude.{length, IfSome};
ghost use Rattle.ac_syntax.specs.ReadyPrograms.{ReadyProgram, FitParts};
ghost use Rattle.ac_flow.specs.Readers.{IsLowered};

use ac_base::Items;
use ac_flow::types::Limits;
use ac_forms::Form;
use ac_legal::legal;
use ac_legal::types::{Legal, Schedule};
use ac_parse::parse;
use ac_poly::lower;
use ac_poly::types::Model;
use ac_syntax::tree::Program;
use std::alloc::{AllocError, Global};
use std::test::Fail;

/// Each element is written once, and nothing that is written is read.
const COPY: &[u8] =
    b"void f(int N, int B[N], int C[N]) { for (int i = 0; i < N; i++) C[i] = h(B[i]); }";

/// Each element is of the one before it. At size 3 there are two instances, of A[1] and of A[2].
const CHAIN: &[u8] = b"#pragma affine context N == 3
void f(int N, int A[N]) { for (int i = 1; i < N; i++) A[i] = g(A[i - 1]); }";

/// Each element is of the one behind it.
const SHIFT: &[u8] =
    b"void f(int N, int A[N]) { for (int i = 0; i < N - 1; i++) A[i] = g(A[i + 1]); }";

/// Each instance writes the one cell.
const LAST: &[u8] =
    b"void f(int N, int A[1], int B[N]) { for (int i = 0; i < N; i++) A[0] = g(B[i]); }";

/// A product of matrices of size 2.
const PRODUCT: &[u8] = b"#pragma affine context N == 2
void f(int N, int A[N][N], int B[N][N], int C[N][N]) {
  for (int i = 0; i < N; i++)
    for (int j = 0; j < N; j++)
      for (int k = 0; k < N; k++)
        C[i][j] = add(C[i][j], mul(A[i][k], B[k][j]));
}";

// The counters of its loops, behind the parameter.
const I: &[i128] = &[0, 1];

const J: &[i128] = &[0, 0, 1];

const K: &[i128] = &[0, 0, 0, 1];

/// A sweep in place, again and again.
const SWEEP: &[u8] = b"void f(int T, int N, int A[N]) {
  for (int t = 0; t < T; t++)
    for (int i = 1; i < N - 1; i++)
      A[i] = g(A[i - 1], A[i], A[i + 1]);
}";

/// Two assignments, of which the second reads what the first writes.
const PAIR: &[u8] = b"#pragma affine context N >= 1 && N <= 3
void f(int N, int A[1], int B[1], int C[1]) { A[0] = g(B[0]); C[0] = h(A[0]); }";

/// The model of a program under its own context.
fn lowered(alloc: Global, program: &Program) -> Option<Model>
    requires { ReadyProgram program.now }
    ensures { IfSome result IsLowered }
{
    match lower(alloc, program, &program.context) {
        Ok(model) => Some(model),
        Err(_) => None,
    }
}

/// The model of a text under its own context.
fn model(alloc: Global, text: &[u8]) -> Option<Model>
    ensures { IfSome result IsLowered }
{
    match parse(alloc, text) {
        Ok(program) => lowered(alloc, &program),
        Err(_) => None,
    }
}

/// The forms of one assignment, each by its constant and its coefficients.
fn forms(alloc: Global, times: &[(i128, &[i128])]) -> Result<Items<Form>, AllocError> {
    let mut made = Items::new(alloc);
    for (konst, coefs) in times {
        made.push(Form::from_parts(alloc, *konst, coefs)?)?;
    }
    Ok(made)
}

/// The schedule of a program with one assignment.
fn schedule(alloc: Global, times: &[(i128, &[i128])]) -> Result<Schedule, AllocError> {
    let mut all = Items::new(alloc);
    all.push(forms(alloc, times)?)?;
    Ok(Schedule { times: all })
}

/// What is answered of a text and a schedule.
fn answer(alloc: Global, text: &[u8], order: &Schedule) -> Result<Legal, Fail> {
    let Some(model) = model(alloc, text) else {
        return Err("a model")?;
    };
    let limits = Limits { budget: 1_000_000 };
    let found = legal(alloc, &model, order, &limits).map_err(|_| "no stop")?;
    Ok(found)
}

/// Whether a schedule of a program with one assignment is legal.
fn is_kept(alloc: Global, text: &[u8], times: &[(i128, &[i128])]) -> Result<bool, Fail> {
    let order = schedule(alloc, times)?;
    match answer(alloc, text, &order)? {
        Legal::Kept => Ok(true),
        Legal::Broken { .. } => Ok(false),
    }
}

#[test]
fn independent_instances_may_be_reversed(rt: HostRuntime) -> Result<(), Fail> {
    let alloc = rt.alloc();
    assert!(rt; is_kept(alloc, COPY, &[(0, &[0, -1])])?);
    assert!(rt; is_kept(alloc, COPY, &[(0, &[])])?);
    Ok(())
}

#[test]
fn a_recurrence_may_not_be_reversed(rt: HostRuntime) -> Result<(), Fail> {
    let alloc = rt.alloc();
    let order = schedule(alloc, &[(0, &[0, -1])])?;
    let Legal::Broken { at, first, second } = answer(alloc, CHAIN, &order)? else {
        return Err("a broken pair")?;
    };
    assert_eq!(rt; at.as_slice(), &[3i128][..]);
    assert_eq!(rt; first.0, 0);
    assert_eq!(rt; first.1.as_slice(), &[0i128][..]);
    assert_eq!(rt; second.0, 0);
    assert_eq!(rt; second.1.as_slice(), &[1i128][..]);
    assert!(rt; is_kept(alloc, CHAIN, &[(0, &[0, 1])])?);
    Ok(())
}

#[test]
fn equal_times_break_the_order(rt: HostRuntime) -> Result<(), Fail> {
    let alloc = rt.alloc();
    assert!(rt; !is_kept(alloc, CHAIN, &[(7, &[])])?);
    assert!(rt; !is_kept(alloc, CHAIN, &[])?);
    Ok(())
}

#[test]
fn writes_after_reads_and_writes_conflict(rt: HostRuntime) -> Result<(), Fail> {
    let alloc = rt.alloc();
    assert!(rt; !is_kept(alloc, SHIFT, &[(0, &[0, -1])])?);
    assert!(rt; !is_kept(alloc, LAST, &[(0, &[0, -1])])?);
    Ok(())
}

#[test]
fn loops_of_a_product_may_be_interchanged(rt: HostRuntime) -> Result<(), Fail> {
    let alloc = rt.alloc();
    assert!(rt; is_kept(alloc, PRODUCT, &[(0, J), (0, I), (0, K)])?);
    assert!(rt; is_kept(alloc, PRODUCT, &[(0, K), (0, I), (0, J)])?);
    let order = schedule(alloc, &[(0, I), (0, J), (0, &[0, 0, 0, -1])])?;
    let Legal::Broken { at, first, second } = answer(alloc, PRODUCT, &order)? else {
        return Err("a broken pair")?;
    };
    // the same element at k = 0 and at k = 1
    assert_eq!(rt; at.as_slice(), &[2i128][..]);
    assert_eq!(rt; first.1.len(), 3);
    assert_eq!(rt; second.1.len(), 3);
    assert_eq!(rt; first.1.as_slice().get(2), Some(&0i128));
    assert_eq!(rt; second.1.as_slice().get(2), Some(&1i128));
    Ok(())
}

#[test]
fn a_sweep_needs_a_steep_skew(rt: HostRuntime) -> Result<(), Fail> {
    let alloc = rt.alloc();
    assert!(rt; is_kept(alloc, SWEEP, &[(0, &[0, 0, 2, 1])])?);
    assert!(rt; !is_kept(alloc, SWEEP, &[(0, &[0, 0, 1, 1])])?);
    Ok(())
}

#[test]
fn an_order_may_break_at_one_size(rt: HostRuntime) -> Result<(), Fail> {
    let alloc = rt.alloc();
    // the times are N and 3
    let mut all = Items::new(alloc);
    all.push(forms(alloc, &[(0, &[1])])?)?;
    all.push(forms(alloc, &[(3, &[])])?)?;
    let order = Schedule { times: all };
    let Legal::Broken { at, first, second } = answer(alloc, PAIR, &order)? else {
        return Err("a broken pair")?;
    };
    assert_eq!(rt; at.as_slice(), &[3i128][..]);
    assert_eq!(rt; first.0, 0);
    assert_eq!(rt; second.0, 1);
    assert!(rt; first.1.is_empty() && second.1.is_empty());
    Ok(())
}

#[test]
fn simplex_needs_no_budget(rt: HostRuntime) -> Result<(), Fail> {
    let alloc = rt.alloc();
    let order = schedule(alloc, &[(0, &[0, 1])])?;
    let Some(model) = model(alloc, CHAIN) else {
        return Err("a model")?;
    };
    let limits = Limits { budget: 0 };
    let found = legal(alloc, &model, &order, &limits);
    assert!(rt; matches!(found, Ok(Legal::Kept)));
    Ok(())
}
