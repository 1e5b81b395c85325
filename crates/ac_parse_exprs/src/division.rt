//! What is divided: the arguments of quotients, and comparisons that test a divisor.

ghost use Rattle.std.specs.Prelude.{◌≡◌, ◌||◌, ◌+ℤ◌, map, Some, None, IfOk, if◌then◌else◌};
ghost use Rattle.std.specs.Option.{option_map};
ghost use Rattle.ac_syntax.specs.Turns.{innermost};
ghost use Rattle.ac_parse_exprs.specs.AffineForms.{is_small};
ghost use Rattle.ac_parse_exprs.specs.IndexExpressions.{changes_by_turn, is_refused, added, rounded_form, quotient_of, divided_broken, judged_quotient};
ghost use Rattle.ac_parse_exprs.specs.Comparisons.{judged_division};
ghost use Rattle.ac_parse_exprs.specs.Divisions as spec;

use crate::fault::{Broken, Rule, Which, broken_where, earlier};
use crate::form::{Affine, Collected, coefficient, quotient_form, small};
use crate::index::{Judged, is_long};
use crate::scope::Scope;
use ac_parse_grammar::tree::{Expr, Numeral, Operator, Part, Relation};
use ac_syntax::tree::{Place, Quot};
use std::alloc::{AllocError, Global};

impl Scope {
    /// Whether a form changes from turn to turn of the loop whose condition this is.
    fn changes_by_turn(&self, form: &Collected) -> bool
        ensures { result ≡ changes_by_turn self.now form.now }
    {
        match form {
            Collected::Known(form) => self.tested && form.innermost() != 0,
            _ => false,
        }
    }

    /// Whether an expression may not be divided by the number here.
    fn refuses(&self, divisor: &Numeral, it: &Judged) -> bool
        ensures { result ≡ is_refused self.now divisor.now it.now }
    {
        self.fixed || divisor.number == 0 || it.rounds || it.awry || self.changes_by_turn(&it.form)
    }
}

/// What `ceild` adds to what it divides.
fn added(up: bool, divisor: &Numeral) -> i128
    ensures { result ≡ added up divisor.now }
{
    if up {
        i128::from(divisor.number) - 1
    } else {
        0
    }
}

/// The constant of what is divided; none exactly where it passes the limit.
fn constant(number: i128, up: bool, divisor: &Numeral) -> Option<i64>
    ensures { result ≡ (if is_small (number +ℤ added up divisor.now) then Some (number +ℤ added up divisor.now) else None) }
{
    small(number.checked_add(added(up, divisor))?)
}

impl Affine {
    /// The coefficient of the innermost iterator, 0 where there is none.
    #[tactic(auto, using(crate::proofs::Columns::innermost_at))]
    fn innermost(&self) -> i128
        ensures { result ≡ innermost self.now.iters }
    {
        coefficient(self.iters.as_slice(), self.iters.len().saturating_sub(1))
    }

    /// The form of its quotient.
    fn quotient(
        &self,
        alloc: Global,
        scope: &Scope,
        up: bool,
        divisor: &Numeral,
        place: Place,
    ) -> Result<Collected, AllocError>
        ensures { IfOk result (λ it. it ≡ rounded_form scope.now up divisor.now place self.now) }
    {
        let Some(konst) = constant(self.constant, up, divisor) else {
            return Ok(Collected::Large(false));
        };
        let Some(argument) = self.index(alloc, place)? else {
            return Ok(Collected::Large(false));
        };
        let quot = Quot {
            coef: 1,
            konst,
            params: argument.params,
            iters: argument.iters,
            div: i64::from(divisor.number),
            place,
        };
        let form = quotient_form(alloc, scope.params, scope.iterators.len(), quot)?;
        Ok(Collected::Known(form))
    }
}

impl Collected {
    fn quotient(
        &self,
        alloc: Global,
        scope: &Scope,
        up: bool,
        divisor: &Numeral,
        place: Place,
    ) -> Result<Collected, AllocError>
        ensures { IfOk result (λ it. it ≡ quotient_of scope.now up divisor.now place self.now) }
    {
        match self {
            Collected::Known(form) => form.quotient(alloc, scope, up, divisor, place),
            Collected::Large(_) => Ok(Collected::Large(false)),
            Collected::Unknown => Ok(Collected::Unknown),
        }
    }
}

impl Judged {
    /// What is broken where it is divided by the number.
    fn divided(&self, refused: bool, divisor: &Numeral, place: Place) -> Option<Broken>
        ensures { result ≡ divided_broken refused divisor.now place self.now }
    {
        let literal = broken_where(is_long(divisor), Rule::Limit(Which::Literal), divisor.place);
        let whole = broken_where(refused, Rule::NotAffine, place);
        earlier(earlier(self.broken, literal), whole)
    }

    /// What the rules say of its quotient, whose word is at the place.
    pub fn quotient(
        &self,
        alloc: Global,
        scope: &Scope,
        up: bool,
        divisor: &Numeral,
        place: Place,
    ) -> Result<Judged, AllocError>
        ensures { IfOk result (λ it. it ≡ judged_quotient scope.now up divisor.now place self.now) }
    {
        let refused = scope.refuses(divisor, self);
        let form = if refused || is_long(divisor) {
            Collected::Unknown
        } else {
            self.form.quotient(alloc, scope, up, divisor, place)?
        };
        Ok(Judged {
            place,
            large: self.large || form.is_large(),
            form,
            rounds: true,
            awry: self.awry || refused,
            broken: self.divided(refused, divisor, place),
        })
    }

    /// What the rules say of a comparison that tests the number as its divisor.
    pub(crate) fn division(self, scope: &Scope, divisor: &Numeral, place: Place) -> Judged
        ensures { result ≡ judged_division scope.now divisor.now place self }
    {
        let refused = scope.refuses(divisor, &self);
        let broken = self.divided(refused, divisor, place);
        Judged {
            place,
            large: self.large,
            rounds: true,
            awry: self.awry || refused,
            broken,
            form: if refused || is_long(divisor) {
                Collected::Unknown
            } else {
                self.form
            },
        }
    }
}

/// `e % c`: the operands and operators of `e`, the number `c`, and the place of the outermost parenthesis around it.
#[derive(Clone, Copy)]
pub(crate) struct Division<'a> {
    pub operands: &'a [Expr],
    pub operators: &'a [Operator],
    pub divisor: &'a Numeral,
    pub parenthesis: Option<Place>,
}

/// The Number that an expression is.
#[tactic(auto, using(crate::proofs::Dividing::dividing))]
fn number_alone(e: &Expr) -> Option<&Numeral>
    ensures { option_map (λ n. n.now) result ≡ spec.number_alone e.now }
{
    match e {
        Expr::Number(numeral) => Some(numeral),
        Expr::Decimal(_) => None,
        Expr::Access { .. } => None,
        Expr::Call { .. } => None,
        Expr::Quotient { .. } => None,
        Expr::Negative { .. } => None,
        Expr::Group { .. } => None,
        Expr::Chain { .. } => None,
    }
}

/// A chain whose last operator is `%`, before a Number.
fn chain_division<'a>(operands: &'a [Expr], operators: &'a [Operator]) -> Option<Division<'a>>
    ensures { option_map spec.lent result ≡ spec.chain_division operands.now operators.now }
{
    let n = operators.len();
    let Some(Operator::Remainder) = operators.last() else {
        return None;
    };
    if operands.len() != n + 1 {
        return None;
    }
    let divisor = number_alone(&operands[n])?;
    Some(Division {
        operands: &operands[..n],
        operators: &operators[..n - 1],
        divisor,
        parenthesis: None,
    })
}

/// A division in parentheses or without.
#[tactic(auto, using(crate::proofs::Dividing::dividing))]
fn division_of(e: &Expr) -> Option<Division<'_>>
    ensures { option_map spec.lent result ≡ spec.division_of e.now }
{
    match e {
        Expr::Group { inner, place } => {
            let found = division_of(inner.get())?;
            Some(Division {
                operands: found.operands,
                operators: found.operators,
                divisor: found.divisor,
                parenthesis: Some(*place),
            })
        }
        Expr::Chain {
            operands,
            operators,
        } => chain_division(operands.as_slice(), operators.as_slice()),
        Expr::Number(_) => None,
        Expr::Decimal(_) => None,
        Expr::Access { .. } => None,
        Expr::Call { .. } => None,
        Expr::Quotient { .. } => None,
        Expr::Negative { .. } => None,
    }
}

/// Whether an expression is the Number 0.
fn is_nought(e: &Expr) -> bool
    ensures { result ≡ spec.is_nought (spec.number_alone e.now) }
{
    match number_alone(e) {
        Some(numeral) => numeral.number == 0,
        None => false,
    }
}

/// What a comparison tests a divisor of.
pub(crate) fn tested_division(part: &Part) -> Option<Division<'_>>
    ensures { option_map spec.lent result ≡ spec.tested_division part.now }
{
    if matches!(part.relation, Relation::Equal) && is_nought(&part.right) {
        division_of(&part.left)
    } else {
        None
    }
}
