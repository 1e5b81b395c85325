ghost use Rattle.std.specs.Prelude.{◌≡◌, ◌+◌, map, IfOk};
ghost use Rattle.ac_parse_exprs.specs.Meanings.{meaning};
ghost use Rattle.ac_parse_exprs.specs.Values.{access_broken, access_reading, value, value_broken};
ghost use Rattle.ac_parse_exprs.specs.Measures.{capped, measure_of, measure, measured_broken, measured_nodes, with_measure, total_of, measured_call, measured_negative, measured_group, measured_both, joined_measured, chain_measured};

use crate::comparison::check_indices;
use crate::fault::{Broken, Rule, earlier, rule_broken};
use crate::index::{Judged, judge};
use crate::scope::{Entry, Meaning, Scope};
use ac_parse_grammar::tree::{Expr, Numeral, Operator, Word};
use ac_syntax::tree::Place;
use std::alloc::{AllocError, Global};

/// An expression of a value as it is checked: a number by what the rules say of it, or the first rule that is broken and how
/// many nodes the value has, up to 65.
#[derive(Drop)]
pub enum Measured {
    Number(Judged),
    Other { broken: Option<Broken>, nodes: u8 },
}

/// The first rule that is broken in several values, and how many nodes they have, up to 65.
#[derive(Clone, Copy)]
pub struct Total {
    pub broken: Option<Broken>,
    pub nodes: u8,
}

/// Two counts of nodes together, up to 65.
fn add(left: u8, right: u8) -> u8
    ensures { result ≡ capped (left + right) }
{
    left.saturating_add(right).min(65)
}

impl Total {
    fn with(self, measured: &Measured) -> Total
        ensures { result ≡ with_measure self measured.now }
    {
        Total {
            broken: earlier(self.broken, measured.broken()),
            nodes: add(self.nodes, measured.nodes()),
        }
    }
}

impl Measured {
    /// The first rule that is broken.
    pub fn broken(&self) -> Option<Broken>
        ensures { result ≡ measured_broken self.now }
    {
        match self {
            Measured::Number(judged) => judged.whole_broken(),
            Measured::Other { broken, .. } => *broken,
        }
    }

    /// How many nodes there are, up to 65.
    pub fn nodes(&self) -> u8
        ensures { result ≡ measured_nodes self.now }
    {
        match self {
            Measured::Number(_) => 1,
            Measured::Other { nodes, .. } => *nodes,
        }
    }

    fn negative(self, alloc: Global, place: Place) -> Result<Measured, AllocError>
        ensures { IfOk result (λ it. it ≡ measured_negative place self) }
    {
        match self {
            Measured::Number(judged) => Ok(Measured::Number(judged.negative(alloc, place)?)),
            Measured::Other { broken, nodes } => Ok(Measured::Other {
                broken,
                nodes: add(nodes, 1),
            }),
        }
    }

    fn group(self, place: Place) -> Measured
        ensures { result ≡ measured_group place self }
    {
        match self {
            Measured::Number(judged) => Measured::Number(judged.group(place)),
            Measured::Other { broken, nodes } => Measured::Other { broken, nodes },
        }
    }

    fn both(&self, other: &Measured) -> Measured
        ensures { result ≡ measured_both self.now other.now }
    {
        Measured::Other {
            broken: earlier(self.broken(), other.broken()),
            nodes: plus(self.nodes(), other.nodes()),
        }
    }

    /// An operator between two.
    fn join(
        self,
        alloc: Global,
        operator: Operator,
        other: Measured,
    ) -> Result<Measured, AllocError>
        ensures { IfOk result (λ it. it ≡ joined_measured operator self other) }
    {
        match &self {
            Measured::Number(left) => match &other {
                Measured::Number(right) => {
                    Ok(Measured::Number(left.join(alloc, operator, right)?))
                }
                _ => Ok(self.both(&other)),
            },
            _ => Ok(self.both(&other)),
        }
    }
}

/// Two counts of nodes and the node above them, up to 65.
fn plus(left: u8, right: u8) -> u8
    ensures { result ≡ capped ((left + right) + 1) }
{
    left.saturating_add(right).saturating_add(1).min(65)
}

/// What is broken in a name with subscripts, of which the rule is broken.
pub fn check_access(
    alloc: Global,
    names: &[Entry],
    scope: &Scope,
    rule: Option<Rule>,
    word: &Word,
    subs: &[Expr],
) -> Result<Option<Broken>, AllocError>
    ensures { IfOk result (λ broken. broken ≡ access_broken names.now scope.now rule word.now subs.now) }
{
    let named = rule_broken(rule, word.place);
    Ok(earlier(named, check_indices(alloc, names, scope, subs)?))
}

#[tactic(auto, using(ac_syntax::proofs::Sizes::sizes))]
fn measure_access(
    alloc: Global,
    names: &[Entry],
    scope: &Scope,
    word: &Word,
    subs: &[Expr],
) -> Result<Measured, AllocError>
    ensures { IfOk result (λ it. it ≡ measure_of (access_reading names.now scope.now (meaning names.now scope.now word.now.name) word.now subs.now)) }
{
    let meaning = scope.meaning(names, &word.name);
    if subs.is_empty() && !meaning.is_array() {
        Ok(Measured::Number(scope.judge_name(alloc, meaning, word)?))
    } else {
        let rule = meaning.read_rule(subs.len());
        Ok(Measured::Other {
            broken: check_access(alloc, names, scope, rule, word, subs)?,
            nodes: 1,
        })
    }
}

fn measure_call(meaning: Meaning, word: &Word, args: Total) -> Measured
    ensures { result ≡ measured_call meaning word.now args }
{
    Measured::Other {
        broken: earlier(rule_broken(meaning.call_rule(), word.place), args.broken),
        nodes: add(args.nodes, 1),
    }
}

/// What a check keeps of an expression in a value.
#[cycle(measure)]
#[tactic(auto, using(crate::proofs::Kept::measuring))]
pub fn measure(
    alloc: Global,
    names: &[Entry],
    scope: &Scope,
    e: &Expr,
) -> Result<Measured, AllocError>
    ensures { IfOk result (λ it. it ≡ measure names.now scope.now e.now) }
{
    match e {
        Expr::Number(numeral) => Ok(Measured::Number(scope.judge_number(alloc, numeral)?)),
        Expr::Decimal(_) => Ok(Measured::Other {
            broken: None,
            nodes: 1,
        }),
        Expr::Access { name, subs } => measure_access(alloc, names, scope, name, subs.as_slice()),
        Expr::Call { name, args } => {
            let total = measure_all(alloc, names, scope, args.as_slice())?;
            Ok(measure_call(scope.meaning(names, &name.name), name, total))
        }
        Expr::Quotient { .. } => Ok(Measured::Number(judge(alloc, names, scope, e)?)),
        Expr::Negative { operand, place } => {
            measure(alloc, names, scope, operand.get())?.negative(alloc, *place)
        }
        Expr::Group { inner, place } => {
            Ok(measure(alloc, names, scope, inner.get())?.group(*place))
        }
        Expr::Chain {
            operands,
            operators,
        } => measure_chain(
            alloc,
            names,
            scope,
            operands.as_slice(),
            operators.as_slice(),
        ),
    }
}

/// The same of several expressions together.
#[cycle(measure)]
fn measure_all(
    alloc: Global,
    names: &[Entry],
    scope: &Scope,
    es: &[Expr],
) -> Result<Total, AllocError>
    ensures { IfOk result (λ total. total ≡ total_of (map (measure names.now scope.now) es.now)) }
{
    let mut total = Total {
        broken: None,
        nodes: 0,
    };
    for e in es {
        total = total.with(&measure(alloc, names, scope, e)?);
    }
    Ok(total)
}

/// The same of a chain.
#[cycle(measure)]
fn measure_chain(
    alloc: Global,
    names: &[Entry],
    scope: &Scope,
    operands: &[Expr],
    operators: &[Operator],
) -> Result<Measured, AllocError>
    ensures { IfOk result (λ it. it ≡ chain_measured scope.now (map (measure names.now scope.now) operands.now) operators.now) }
{
    let Some(first) = operands.first() else {
        let nothing = Numeral {
            number: 0,
            place: Place { at: 0 },
        };
        return Ok(Measured::Number(scope.judge_number(alloc, &nothing)?));
    };
    let mut sofar = measure(alloc, names, scope, first)?;
    for i in 1..operands.len() {
        let Some(operator) = operators.get(i - 1) else {
            return Ok(sofar);
        };
        let next = measure(alloc, names, scope, &operands[i])?;
        sofar = sofar.join(alloc, *operator, next)?;
    }
    Ok(sofar)
}
