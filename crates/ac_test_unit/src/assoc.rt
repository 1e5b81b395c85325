//! Chains and arrangements of small pairs. The answers were worked out by hand.
use ac_assoc::types::{AssocFault, Chain};
use ac_assoc::{arrange, arrangements, chains};
use ac_base::Items;
use ac_instance::{Outcome, Side, instance};
use ac_parse::{pair, parse};
use ac_syntax::name::Name;
use ac_syntax::tree::Pair;
use std::alloc::Global;
use std::test::Fail;

/// A sum of three, and the same one in other brackets and another order.
const SUM: &[u8] = b"void f(int N, int A[N], int B[N], int D[N], int C[N]) {
  for (int i = 0; i < N; i++)
    C[i] = A[i] + B[i] + D[i];
}";

const REGROUPED: &[u8] = b"void f(int N, int A[N], int B[N], int D[N], int C[N]) {
  for (int i = 0; i < N; i++)
    C[i] = D[i] + (A[i] + B[i]);
}";

/// A sum whose numbers stand behind the read, and one whose numbers stand before it.
const BEHIND: &[u8] = b"void f(int N, int A[N], int C[N]) {
  for (int i = 0; i < N; i++)
    C[i] = A[i] + 1 + i;
}";

const BEFORE: &[u8] = b"void f(int N, int A[N], int C[N]) {
  for (int i = 0; i < N; i++)
    C[i] = 1 + i + A[i];
}";

/// A call of three arguments, at byte 36.
const CALL: &[u8] = b"void f(int A[1], int C[1]) { C[0] = g(A[0], A[0], A[0]); }";

/// The pair of two texts.
fn pair_of(alloc: Global, left: &[u8], right: &[u8]) -> Option<Pair> {
    let left = parse(alloc, left).ok()?;
    let right = parse(alloc, right).ok()?;
    pair(alloc, left, right).ok()
}

/// A list of one name.
fn symbols(alloc: Global, symbol: &[u8]) -> Result<Items<Name>, Fail> {
    let Some(name) = Name::new(Vec::from_slice(alloc, symbol)?) else {
        return Err("a name")?;
    };
    let mut names = Items::new(alloc);
    names.push(name)?;
    Ok(names)
}

/// The chains of a pair.
fn found(alloc: Global, pair: &Pair, symbols: &[Name]) -> Result<Items<Chain>, Fail> {
    let chains = chains(alloc, pair, symbols).map_err(|_| "no fault")?;
    Ok(chains)
}

/// Whether the output of an arrangement is equal where the parameter is 2.
fn is_equal(
    alloc: Global,
    pair: &Pair,
    symbols: &[Name],
    chains: &[Chain],
    number: u64,
) -> Result<bool, Fail> {
    let arranged = arrange(alloc, pair, symbols, chains, number)?;
    let ran = instance(alloc, &arranged, &[2], 1000).map_err(|_| "no halt")?;
    match ran.outcomes.as_slice().first() {
        Some(Outcome::Equal) => Ok(true),
        _ => Ok(false),
    }
}

/// Whether of the six arrangements the one with this number alone is equal.
fn only_equal(alloc: Global, left: &[u8], right: &[u8], only: u64) -> Result<bool, Fail> {
    let Some(pair) = pair_of(alloc, left, right) else {
        return Err("a pair")?;
    };
    let symbols = symbols(alloc, b"+")?;
    let chains = found(alloc, &pair, symbols.as_slice())?;
    if arrangements(chains.as_slice()) != 6 {
        return Ok(false);
    }
    for number in 0..6u64 {
        let equal = is_equal(alloc, &pair, symbols.as_slice(), chains.as_slice(), number)?;
        if equal != (number == only) {
            return Ok(false);
        }
    }
    Ok(true)
}

/// How many operands each chain of `+` has.
fn counts(alloc: Global, left: &[u8], right: &[u8]) -> Result<Vec<usize>, Fail> {
    let Some(pair) = pair_of(alloc, left, right) else {
        return Err("a pair")?;
    };
    let symbols = symbols(alloc, b"+")?;
    let mut counts = Vec::new(alloc);
    for chain in found(alloc, &pair, symbols.as_slice())?.as_slice() {
        counts.push(chain.operands.len())?;
    }
    Ok(counts)
}

/// Whether a listed symbol is misused at this byte of the left text.
fn is_misused(alloc: Global, text: &[u8], symbol: &[u8], at: u32) -> Result<bool, Fail> {
    let Some(pair) = pair_of(alloc, text, text) else {
        return Err("a pair")?;
    };
    let symbols = symbols(alloc, symbol)?;
    match chains(alloc, &pair, symbols.as_slice()) {
        Err(AssocFault::Arity(Side::Left, place)) => Ok(place.at == at),
        _ => Ok(false),
    }
}

#[test]
fn one_arrangement_of_six_is_equal(rt: HostRuntime) -> Result<(), Fail> {
    let alloc = rt.alloc();
    // the orders of D, A, B: DAB, DBA, ADB, ABD
    assert!(rt; only_equal(alloc, SUM, REGROUPED, 3)?);
    Ok(())
}

#[test]
fn numbers_are_collected_first(rt: HostRuntime) -> Result<(), Fail> {
    let alloc = rt.alloc();
    assert_eq!(rt; counts(alloc, BEHIND, BEFORE)?.as_slice(), &[3usize, 2][..]);
    Ok(())
}

#[test]
fn three_arguments_are_a_misuse(rt: HostRuntime) -> Result<(), Fail> {
    let alloc = rt.alloc();
    assert!(rt; is_misused(alloc, CALL, b"g", 36)?);
    assert!(rt; !is_misused(alloc, CALL, b"h", 36)?);
    Ok(())
}
