ghost use Rattle.std.specs.Prelude.{◌≡◌, ℕ, [], ◌∷◌, map, length, min, IfOk};
ghost use Rattle.ac_parse_exprs.specs.Values.{Reading, value_place, placed, value_of, symbol, operator_name, array_number, read_of, access_reading, call_reading, negative_reading, group_reading, joined_reading, chain_reading, reading, value, applied_values};
ghost use Rattle.ac_parse_exprs.specs.Meanings.{meaning};
ghost use Rattle.ac_parse_exprs.specs.Measures.{built_of, built_value, built_negative, built_group, built_call, joined_built, chain_built, build};

use crate::comparison::build_indices;
use crate::index::{Judged, judge};
use crate::scope::{Entry, Meaning, Scope};
use ac_base::Items;
use ac_parse_grammar::tree::{Expr, Numeral, Operator, Word};
use ac_syntax::name::Name;
use ac_syntax::tree::{IndexExpr, Place, Symbol, Value};
use std::alloc::{AllocError, Global};

/// An expression of a value: a number by what the rules say of it, or a value.
#[derive(Drop)]
pub enum Built {
    Number(Judged),
    Other(Value),
}

fn value_place(value: &Value) -> Place
    ensures { result ≡ value_place value.now }
{
    match value {
        Value::Number(e) => e.place,
        Value::Access { place, .. } => *place,
        Value::Call { place, .. } => *place,
    }
}

/// The same value from another first byte on.
fn placed(place: Place, value: Value) -> Value
    ensures { result ≡ placed place value }
{
    match value {
        Value::Number(e) => Value::Number(IndexExpr {
            konst: e.konst,
            params: e.params,
            iters: e.iters,
            quots: e.quots,
            place,
        }),
        Value::Access { array, subs, .. } => Value::Access { array, subs, place },
        Value::Call { symbol, args, .. } => Value::Call {
            symbol,
            args,
            place,
        },
    }
}

/// The number of an array, 0 for other names.
pub fn array_number(meaning: Meaning) -> usize
    ensures { result ≡ array_number meaning }
{
    match meaning {
        Meaning::Array { number, .. } => number,
        _ => 0,
    }
}

/// A symbol; an arity above 255 stands as 255.
fn symbol(name: Name, arity: usize) -> Symbol
    ensures { result ≡ symbol name arity }
{
    Symbol {
        name,
        arity: arity.min(255) as u8,
    }
}

/// The symbol of an operator of so many arguments.
fn operator_symbol(alloc: Global, operator: Operator, arity: usize) -> Result<Symbol, AllocError>
    ensures { IfOk result (λ it. it ≡ symbol (operator_name operator) arity) }
{
    let byte = match operator {
        Operator::Add => b'+',
        Operator::Subtract => b'-',
        Operator::Multiply => b'*',
        Operator::Divide => b'/',
        Operator::Remainder => b'%',
    };
    let bytes = Vec::from_elem(alloc, byte, 1)?;
    Ok(symbol(Name::new(bytes).unwrap(), arity))
}

impl Built {
    fn into_value(self, alloc: Global, scope: &Scope) -> Result<Value, AllocError>
        ensures { IfOk result (λ v. v ≡ built_value scope.now self) }
    {
        match self {
            Built::Number(judged) => Ok(Value::Number(judged.into_index(alloc, scope)?)),
            Built::Other(value) => Ok(value),
        }
    }
}

/// A read of an array's cell.
pub fn build_read(
    alloc: Global,
    names: &[Entry],
    scope: &Scope,
    meaning: Meaning,
    word: &Word,
    subs: &[Expr],
) -> Result<Value, AllocError>
    ensures { IfOk result (λ v. v ≡ read_of names.now scope.now meaning word.now subs.now) }
{
    Ok(Value::Access {
        array: array_number(meaning),
        subs: build_indices(alloc, names, scope, subs)?,
        place: word.place,
    })
}

fn build_access(
    alloc: Global,
    names: &[Entry],
    scope: &Scope,
    word: &Word,
    subs: &[Expr],
) -> Result<Built, AllocError>
    ensures { IfOk result (λ built. built ≡ built_of (access_reading names.now scope.now (meaning names.now scope.now word.now.name) word.now subs.now)) }
{
    let meaning = scope.meaning(names, &word.name);
    if subs.is_empty() && !meaning.is_array() {
        Ok(Built::Number(scope.judge_name(alloc, meaning, word)?))
    } else {
        let read = build_read(alloc, names, scope, meaning, word, subs)?;
        Ok(Built::Other(read))
    }
}

impl Built {
    fn negative(self, alloc: Global, place: Place) -> Result<Built, AllocError>
        ensures { IfOk result (λ it. it ≡ built_negative place self) }
    {
        match self {
            Built::Number(judged) => Ok(Built::Number(judged.negative(alloc, place)?)),
            Built::Other(value) => {
                let mut args = Items::new(alloc);
                args.push(value)?;
                Ok(Built::Other(Value::Call {
                    symbol: operator_symbol(alloc, Operator::Subtract, 1)?,
                    args,
                    place,
                }))
            }
        }
    }

    fn group(self, place: Place) -> Built
        ensures { result ≡ built_group place self }
    {
        match self {
            Built::Number(judged) => Built::Number(judged.group(place)),
            Built::Other(value) => Built::Other(placed(place, value)),
        }
    }
}

/// An operator between two values.
pub fn apply(
    alloc: Global,
    operator: Operator,
    left: Value,
    right: Value,
) -> Result<Value, AllocError>
    ensures { IfOk result (λ v. v ≡ applied_values operator left right) }
{
    let place = value_place(&left);
    let mut args = Items::new(alloc);
    args.push(left)?;
    args.push(right)?;
    Ok(Value::Call {
        symbol: operator_symbol(alloc, operator, 2)?,
        args,
        place,
    })
}

impl Built {
    /// An operator between two.
    fn join(
        self,
        alloc: Global,
        scope: &Scope,
        operator: Operator,
        other: Built,
    ) -> Result<Built, AllocError>
        ensures { IfOk result (λ it. it ≡ joined_built scope.now operator self other) }
    {
        match self {
            Built::Number(left) => match other {
                Built::Number(right) => Ok(Built::Number(left.join(alloc, operator, &right)?)),
                Built::Other(right) => {
                    let left = Value::Number(left.into_index(alloc, scope)?);
                    Ok(Built::Other(apply(alloc, operator, left, right)?))
                }
            },
            Built::Other(left) => {
                let right = other.into_value(alloc, scope)?;
                Ok(Built::Other(apply(alloc, operator, left, right)?))
            }
        }
    }
}

fn build_call(alloc: Global, word: &Word, args: Items<Value>) -> Result<Built, AllocError>
    ensures { IfOk result (λ it. it ≡ built_call word.now args) }
{
    let arity = args.len();
    Ok(Built::Other(Value::Call {
        symbol: symbol(word.name.copy(alloc)?, arity),
        args,
        place: word.place,
    }))
}

/// What is built of an expression in a value.
#[cycle(build)]
#[tactic(auto, using(crate::proofs::Kept::building))]
fn build(alloc: Global, names: &[Entry], scope: &Scope, e: &Expr) -> Result<Built, AllocError>
    ensures { IfOk result (λ it. it ≡ build names.now scope.now e.now) }
{
    match e {
        Expr::Number(numeral) => Ok(Built::Number(scope.judge_number(alloc, numeral)?)),
        Expr::Decimal(word) => build_call(alloc, word, Items::new(alloc)),
        Expr::Access { name, subs } => build_access(alloc, names, scope, name, subs.as_slice()),
        Expr::Call { name, args } => {
            let args = build_all(alloc, names, scope, args.as_slice())?;
            build_call(alloc, name, args)
        }
        Expr::Quotient { .. } => Ok(Built::Number(judge(alloc, names, scope, e)?)),
        Expr::Negative { operand, place } => {
            build(alloc, names, scope, operand.get())?.negative(alloc, *place)
        }
        Expr::Group { inner, place } => Ok(build(alloc, names, scope, inner.get())?.group(*place)),
        Expr::Chain {
            operands,
            operators,
        } => build_chain(
            alloc,
            names,
            scope,
            operands.as_slice(),
            operators.as_slice(),
        ),
    }
}

/// The value of an expression.
#[tactic(auto, using(crate::proofs::Kept::building))]
pub fn build_value(
    alloc: Global,
    names: &[Entry],
    scope: &Scope,
    e: &Expr,
) -> Result<Value, AllocError>
    ensures { IfOk result (λ built. built ≡ value names.now scope.now e.now) }
{
    build(alloc, names, scope, e)?.into_value(alloc, scope)
}

/// The values of several expressions.
#[cycle(build)]
#[tactic(auto, using(crate::proofs::Kept::building))]
fn build_all(
    alloc: Global,
    names: &[Entry],
    scope: &Scope,
    es: &[Expr],
) -> Result<Items<Value>, AllocError>
    ensures { IfOk result (λ built. built ≡ map (value names.now scope.now) es.now) }
{
    let mut built = Items::new(alloc);
    for e in es {
        built.push(build(alloc, names, scope, e)?.into_value(alloc, scope)?)?;
    }
    Ok(built)
}

/// What is built of a chain.
#[cycle(build)]
fn build_chain(
    alloc: Global,
    names: &[Entry],
    scope: &Scope,
    operands: &[Expr],
    operators: &[Operator],
) -> Result<Built, AllocError>
    ensures { IfOk result (λ it. it ≡ chain_built scope.now (map (build names.now scope.now) operands.now) operators.now) }
{
    let Some(first) = operands.first() else {
        let nothing = Numeral {
            number: 0,
            place: Place { at: 0 },
        };
        return Ok(Built::Number(scope.judge_number(alloc, &nothing)?));
    };
    let mut sofar = build(alloc, names, scope, first)?;
    for i in 1..operands.len() {
        let Some(operator) = operators.get(i - 1) else {
            return Ok(sofar);
        };
        let next = build(alloc, names, scope, &operands[i])?;
        sofar = sofar.join(alloc, scope, *operator, next)?;
    }
    Ok(sofar)
}
