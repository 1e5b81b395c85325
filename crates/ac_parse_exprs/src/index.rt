ghost use Rattle.std.specs.Prelude.{◌≡◌, [], ◌∷◌, map, length, IfOk};
ghost use Rattle.ac_parse_exprs.specs.FaultOrder.{broken, broken_where, rule_broken};
ghost use Rattle.ac_parse_exprs.specs.IndexExpressions.{is_long, judged_number, judged_decimal, with_part, gathered, no_parts, name_form, judged_name, judged_other, judged_variable, judged_access, is_remainder, judged_negative, judged_group, form_of, is_not_affine, joined, judged_chain, judged};

use crate::fault::{Broken, Rule, Which, broken_where, earlier, rule_broken};
use crate::form::{Collected, constant_form, iterator_form, parameter_form};
use crate::scope::{Entry, Meaning, Scope};
use ac_parse_grammar::tree::{Expr, Numeral, Operator, Word};
use ac_syntax::tree::Place;
use std::alloc::{AllocError, Global};

/// What the rules say of an index expression: its first byte, its form, whether a number of some subexpression passes the limit, whether
/// a quotient or `%` stands in it, whether something in it is not affine, and the first rule that is broken in it.
#[derive(Drop)]
pub struct Judged {
    pub place: Place,
    pub form: Collected,
    pub large: bool,
    pub rounds: bool,
    pub awry: bool,
    pub broken: Option<Broken>,
}

/// The same of several expressions; `known` where each has a form.
#[derive(Clone, Copy)]
pub struct Parts {
    pub known: bool,
    pub large: bool,
    pub rounds: bool,
    pub awry: bool,
    pub broken: Option<Broken>,
}

impl Parts {
    fn with(self, part: &Judged) -> Parts
        ensures { result ≡ with_part self part.now }
    {
        Parts {
            known: self.known && part.form.is_known(),
            large: self.large || part.large,
            rounds: self.rounds || part.rounds,
            awry: self.awry || part.awry,
            broken: earlier(self.broken, part.broken),
        }
    }
}

/// Whether a number passes the limit.
pub fn is_long(numeral: &Numeral) -> bool
    ensures { result ≡ is_long numeral.now }
{
    numeral.number > 2147483648
}

impl Scope {
    /// What the rules say of a number.
    pub fn judge_number(&self, alloc: Global, numeral: &Numeral) -> Result<Judged, AllocError>
        ensures { IfOk result (λ judged. judged ≡ judged_number self.now numeral.now) }
    {
        let large = is_long(numeral);
        let form = if large {
            Collected::Large(true)
        } else {
            let number = i128::from(numeral.number);
            Collected::Known(constant_form(alloc, self.params, self.iterators.len(), number)?)
        };
        Ok(Judged {
            place: numeral.place,
            form,
            large,
            rounds: false,
            awry: false,
            broken: broken_where(large, Rule::Limit(Which::Literal), numeral.place),
        })
    }

    fn name_form(&self, alloc: Global, meaning: Meaning) -> Result<Collected, AllocError>
        ensures { IfOk result (λ form. form ≡ name_form self.now meaning) }
    {
        let iters = self.iterators.len();
        match meaning {
            Meaning::Parameter(k) => Ok(Collected::Known(parameter_form(
                alloc,
                self.params,
                iters,
                k,
            )?)),
            Meaning::Iterator(k) => Ok(Collected::Known(iterator_form(
                alloc,
                self.params,
                iters,
                k,
            )?)),
            _ => Ok(Collected::Unknown),
        }
    }

    /// What the rules say of a name that stands alone, with this meaning.
    pub fn judge_name(
        &self,
        alloc: Global,
        meaning: Meaning,
        word: &Word,
    ) -> Result<Judged, AllocError>
        ensures { IfOk result (λ judged. judged ≡ judged_name self.now meaning word.now) }
    {
        Ok(Judged {
            place: word.place,
            form: self.name_form(alloc, meaning)?,
            large: false,
            rounds: false,
            awry: false,
            broken: rule_broken(meaning.read_rule(0), word.place),
        })
    }

    fn judge_access(
        &self,
        alloc: Global,
        meaning: Meaning,
        word: &Word,
        subs: usize,
        parts: Parts,
    ) -> Result<Judged, AllocError>
        ensures { IfOk result (λ judged. judged ≡ judged_access self.now meaning word.now subs parts) }
    {
        if self.fixed && meaning.is_array() {
            Ok(judge_variable(word))
        } else if subs == 0 && !meaning.is_array() {
            self.judge_name(alloc, meaning, word)
        } else {
            Ok(judge_other(meaning.read_rule(subs), word, parts))
        }
    }
}

/// A decimal is not affine.
fn judge_decimal(word: &Word) -> Judged
    ensures { result ≡ judged_decimal word.now }
{
    Judged {
        place: word.place,
        form: Collected::Unknown,
        large: false,
        rounds: false,
        awry: true,
        broken: Some(Broken {
            rule: Rule::NotAffine,
            place: word.place,
        }),
    }
}

/// An array or a scalar where only parameters may stand.
fn judge_variable(word: &Word) -> Judged
    ensures { result ≡ judged_variable word.now }
{
    Judged {
        place: word.place,
        form: Collected::Unknown,
        large: false,
        rounds: false,
        awry: false,
        broken: Some(Broken {
            rule: Rule::Misused,
            place: word.place,
        }),
    }
}

/// An access or a call, of whose name the rule is broken.
fn judge_other(rule: Option<Rule>, word: &Word, parts: Parts) -> Judged
    ensures { result ≡ judged_other rule word.now parts }
{
    let named = rule_broken(rule, word.place);
    let whole = broken_where(parts.known, Rule::NotAffine, word.place);
    Judged {
        place: word.place,
        form: Collected::Unknown,
        large: parts.large,
        rounds: parts.rounds,
        awry: parts.awry || parts.known,
        broken: earlier(named, earlier(parts.broken, whole)),
    }
}

fn is_remainder(operator: Operator) -> bool
    ensures { result ≡ is_remainder operator }
{
    matches!(operator, Operator::Remainder)
}

fn form_of(
    alloc: Global,
    operator: Operator,
    left: &Collected,
    right: &Collected,
) -> Result<Collected, AllocError>
    ensures { IfOk result (λ form. form ≡ form_of operator left.now right.now) }
{
    match operator {
        Operator::Add => left.sum(alloc, false, right),
        Operator::Subtract => left.sum(alloc, true, right),
        Operator::Multiply => left.product(alloc, right),
        Operator::Divide | Operator::Remainder => Ok(Collected::Unknown),
    }
}

impl Judged {
    /// What the rules say of its negative, with the sign at the place.
    pub fn negative(self, alloc: Global, place: Place) -> Result<Judged, AllocError>
        ensures { IfOk result (λ judged. judged ≡ judged_negative place self) }
    {
        Ok(Judged {
            place,
            form: self.form.negative(alloc)?,
            large: self.large,
            rounds: self.rounds,
            awry: self.awry,
            broken: self.broken,
        })
    }

    /// What the rules say of it in brackets, of which the first is at the place.
    pub fn group(self, place: Place) -> Judged
        ensures { result ≡ judged_group place self }
    {
        Judged {
            place,
            form: self.form,
            large: self.large,
            rounds: self.rounds,
            awry: self.awry,
            broken: self.broken,
        }
    }

    /// An operator between two expressions.
    pub fn join(
        &self,
        alloc: Global,
        operator: Operator,
        other: &Judged,
    ) -> Result<Judged, AllocError>
        ensures { IfOk result (λ judged. judged ≡ joined operator self.now other.now) }
    {
        let form = form_of(alloc, operator, &self.form, &other.form)?;
        let fails = self.form.is_known() && other.form.is_known() && !form.is_known();
        let parts = earlier(self.broken, other.broken);
        Ok(Judged {
            place: self.place,
            large: self.large || other.large || form.is_large(),
            form,
            rounds: self.rounds || other.rounds || is_remainder(operator),
            awry: self.awry || other.awry || fails,
            broken: earlier(parts, broken_where(fails, Rule::NotAffine, self.place)),
        })
    }
}

/// What the rules say of an index expression.
#[cycle(judge)]
#[tactic(auto, using(crate::proofs::Judging::judging))]
pub fn judge(alloc: Global, names: &[Entry], scope: &Scope, e: &Expr) -> Result<Judged, AllocError>
    ensures { IfOk result (λ it. it ≡ judged names.now scope.now e.now) }
{
    match e {
        Expr::Number(numeral) => scope.judge_number(alloc, numeral),
        Expr::Decimal(word) => Ok(judge_decimal(word)),
        Expr::Access { name, subs } => {
            let parts = judge_parts(alloc, names, scope, subs.as_slice())?;
            let meaning = scope.meaning(names, &name.name);
            scope.judge_access(alloc, meaning, name, subs.len(), parts)
        }
        Expr::Call { name, args } => {
            let parts = judge_parts(alloc, names, scope, args.as_slice())?;
            let meaning = scope.meaning(names, &name.name);
            Ok(judge_other(meaning.call_rule(), name, parts))
        }
        Expr::Quotient {
            up,
            argument,
            divisor,
            place,
        } => judge(alloc, names, scope, argument.get())?.quotient(
            alloc, scope, *up, divisor, *place,
        ),
        Expr::Negative { operand, place } => {
            judge(alloc, names, scope, operand.get())?.negative(alloc, *place)
        }
        Expr::Group { inner, place } => {
            Ok(judge(alloc, names, scope, inner.get())?.group(*place))
        }
        Expr::Chain {
            operands,
            operators,
        } => judge_chain(
            alloc,
            names,
            scope,
            operands.as_slice(),
            operators.as_slice(),
        ),
    }
}

/// The same of several expressions.
#[cycle(judge)]
fn judge_parts(
    alloc: Global,
    names: &[Entry],
    scope: &Scope,
    es: &[Expr],
) -> Result<Parts, AllocError>
    ensures { IfOk result (λ parts. parts ≡ gathered no_parts (map (judged names.now scope.now) es.now)) }
{
    let mut parts = Parts {
        known: true,
        large: false,
        rounds: false,
        awry: false,
        broken: None,
    };
    for e in es {
        parts = parts.with(&judge(alloc, names, scope, e)?);
    }
    Ok(parts)
}

/// The same of a chain.
#[cycle(judge)]
#[tactic(auto, using(crate::proofs::Judging::judging))]
pub(crate) fn judge_chain(
    alloc: Global,
    names: &[Entry],
    scope: &Scope,
    operands: &[Expr],
    operators: &[Operator],
) -> Result<Judged, AllocError>
    ensures { IfOk result (λ it. it ≡ judged_chain scope.now (map (judged names.now scope.now) operands.now) operators.now) }
{
    let Some(first) = operands.first() else {
        let nothing = Numeral {
            number: 0,
            place: Place { at: 0 },
        };
        return scope.judge_number(alloc, &nothing);
    };
    let mut sofar = judge(alloc, names, scope, first)?;
    for i in 1..operands.len() {
        let Some(operator) = operators.get(i - 1) else {
            return Ok(sofar);
        };
        let next = judge(alloc, names, scope, &operands[i])?;
        sofar = sofar.join(alloc, *operator, &next)?;
    }
    Ok(sofar)
}
