ghost use Rattle.std.specs.Prelude.{◌≡◌, ◌+ℤ◌, ◌*ℤ◌, ◌++◌, length, pos, negsuc, false, map, IfOk, Some, None, if◌then◌else◌};
ghost use Rattle.ac_parse_exprs.specs.AffineForms.{is_kept, limited, constant_form};
ghost use Rattle.ac_parse_exprs.specs.Comparisons.{first_from, first_of, whole_broken, known_index, placed_form, index_expr, index, index_broken, margin, difference_quots, difference_form, difference, compared_form, rel_of, rel_by, part_rel, compared_forms, tested, compared, comparison, condition, condition_broken};
ghost use Rattle.std.specs.Option.{option_map};
ghost use Rattle.ac_parse_exprs.specs.Divisions as spec;
ghost use Rattle.ac_parse_exprs.specs.Divisions.{tested_division};
ghost use Rattle.ac_parse_exprs.specs.IndexExpressions.{judged, judged_chain};

use crate::division::{Division, tested_division};
use crate::fault::{Broken, Rule, Which, broken_where, earlier};
use crate::form::{Affine, Collected, kept, sums};
use crate::index::{Judged, judge, judge_chain};
use crate::quotients::{joined, scaled};
use crate::scope::{Entry, Scope};
use ac_base::Items;
use ac_parse_grammar::tree::{Expr, Part, Relation};
use ac_syntax::tree::{Comparison, IndexExpr, Place, Quot, Rel};
use std::alloc::{AllocError, Global};

impl Judged {
    /// What is broken in a whole index expression: a large subexpression counts at its first byte.
    pub fn whole_broken(&self) -> Option<Broken>
        ensures { result ≡ whole_broken self.now }
    {
        let limit = Rule::Limit(Which::Coefficient);
        earlier(self.broken, broken_where(self.large, limit, self.place))
    }

    /// The index expression, of 0 where it has no form within the limit.
    pub fn into_index(self, alloc: Global, scope: &Scope) -> Result<IndexExpr, AllocError>
        ensures { IfOk result (λ e. e ≡ index_expr scope.now self) }
    {
        let found = self.form.index(alloc, self.place)?;
        match found {
            Some(index) => Ok(index),
            None => zero_index(alloc, scope, self.place),
        }
    }
}

/// The index expression of 0.
fn zero_index(alloc: Global, scope: &Scope, place: Place) -> Result<IndexExpr, AllocError>
    ensures { IfOk result (λ e. e ≡ placed_form place (constant_form scope.now.params (length scope.now.iterators) (pos 0))) }
{
    Ok(IndexExpr {
        konst: 0,
        params: Items::from(Vec::from_elem(alloc, 0, scope.params)?),
        iters: Items::from(Vec::from_elem(alloc, 0, scope.iterators.len())?),
        quots: Items::new(alloc),
        place,
    })
}

impl Collected {
    /// The index expression, where there is a form within the limit.
    fn index(&self, alloc: Global, place: Place) -> Result<Option<IndexExpr>, AllocError>
        ensures { IfOk result (λ index. index ≡ known_index place self.now) }
    {
        match self {
            Collected::Known(form) => form.index(alloc, place),
            _ => Ok(None),
        }
    }

    /// This less another, and less 1 where `strict`; `turned` where the other stands on the left.
    fn less(
        &self,
        alloc: Global,
        turned: bool,
        strict: bool,
        other: &Collected,
    ) -> Result<Collected, AllocError>
        ensures { IfOk result (λ form. form ≡ difference turned strict self.now other.now) }
    {
        if !self.is_known() || !other.is_known() {
            return Ok(Collected::Unknown);
        }
        match self {
            Collected::Known(left) => match other {
                Collected::Known(right) => left.less(alloc, turned, strict, right),
                _ => Ok(Collected::Large(false)),
            },
            _ => Ok(Collected::Large(false)),
        }
    }
}

/// `x - y - 1`; none exactly where that is not kept.
fn less_one(x: i128, y: i128) -> Option<i128>
    ensures { result ≡ (if is_kept ((x +ℤ (negsuc 0 *ℤ y)) +ℤ negsuc 0) then Some ((x +ℤ (negsuc 0 *ℤ y)) +ℤ negsuc 0) else None) }
{
    let difference = x.checked_sub(y)?;
    kept(difference.checked_sub(1)?)
}

/// `x - y`; none exactly where that is not kept.
fn less_none(x: i128, y: i128) -> Option<i128>
    ensures { result ≡ (if is_kept ((x +ℤ (negsuc 0 *ℤ y)) +ℤ pos 0) then Some ((x +ℤ (negsuc 0 *ℤ y)) +ℤ pos 0) else None) }
{
    kept(x.checked_sub(y)?)
}

/// `x - y`, less 1 where `strict`; none exactly where that is not kept.
fn less_number(x: i128, strict: bool, y: i128) -> Option<i128>
    ensures { result ≡ (if is_kept ((x +ℤ (negsuc 0 *ℤ y)) +ℤ margin strict) then Some ((x +ℤ (negsuc 0 *ℤ y)) +ℤ margin strict) else None) }
{
    if strict {
        less_one(x, y)
    } else {
        less_none(x, y)
    }
}

/// The quotients of the first less the second; `turned` where the second stand on the left.
fn less_quots(
    alloc: Global,
    turned: bool,
    first: &[Quot],
    second: &[Quot],
) -> Result<Option<Items<Quot>>, AllocError>
    ensures { IfOk result (λ made. made ≡ difference_quots turned first.now second.now) }
{
    if !turned {
        return joined(alloc, true, first, second);
    }
    let Some(opposite) = scaled(alloc, -1, second)? else {
        return Ok(None);
    };
    joined(alloc, false, opposite.as_slice(), first)
}

impl Affine {
    fn less(
        &self,
        alloc: Global,
        turned: bool,
        strict: bool,
        other: &Affine,
    ) -> Result<Collected, AllocError>
        ensures { IfOk result (λ collected. collected ≡ limited (difference_quots turned self.now.quots other.now.quots) (difference_form strict self.now other.now) false) }
    {
        let Some(constant) = less_number(self.constant, strict, other.constant) else {
            return Ok(Collected::Large(false));
        };
        let left = self.params.as_slice();
        let Some(params) = sums(alloc, left, true, other.params.as_slice())? else {
            return Ok(Collected::Large(false));
        };
        let left = self.iters.as_slice();
        let Some(iters) = sums(alloc, left, true, other.iters.as_slice())? else {
            return Ok(Collected::Large(false));
        };
        let left = self.quots.as_slice();
        let Some(quots) = less_quots(alloc, turned, left, other.quots.as_slice())? else {
            return Ok(Collected::Large(false));
        };
        Ok(Collected::Known(Affine {
            constant,
            params,
            iters,
            quots,
        }))
    }
}

fn compare_forms(
    alloc: Global,
    relation: Relation,
    left: &Collected,
    right: &Collected,
) -> Result<Collected, AllocError>
    ensures { IfOk result (λ form. form ≡ compared_form relation left.now right.now) }
{
    match relation {
        Relation::Less => right.less(alloc, true, true, left),
        Relation::AtMost => right.less(alloc, true, false, left),
        Relation::Greater => left.less(alloc, false, true, right),
        Relation::AtLeast | Relation::Equal => left.less(alloc, false, false, right),
    }
}

fn rel_of(relation: Relation) -> Rel
    ensures { result ≡ rel_of relation }
{
    match relation {
        Relation::Less | Relation::AtMost | Relation::Greater | Relation::AtLeast => {
            Rel::NonNegative
        }
        Relation::Equal => Rel::Zero,
    }
}

/// How a comparison compares its form.
pub fn part_rel(part: &Part) -> Rel
    ensures { result ≡ part_rel part.now }
{
    match tested_division(part) {
        Some(division) => Rel::Divides(i64::from(division.divisor.number)),
        None => rel_of(part.relation),
    }
}

/// What the rules say of two sides that are compared.
fn compare_sides(
    alloc: Global,
    names: &[Entry],
    scope: &Scope,
    part: &Part,
) -> Result<Judged, AllocError>
    ensures { IfOk result (λ it. it ≡ compared_forms part.now.relation (judged names.now scope.now part.now.left) (judged names.now scope.now part.now.right)) }
{
    let left = judge(alloc, names, scope, &part.left)?;
    let right = judge(alloc, names, scope, &part.right)?;
    let form = compare_forms(alloc, part.relation, &left.form, &right.form)?;
    Ok(Judged {
        place: left.place,
        large: left.large || right.large || form.is_large(),
        form,
        rounds: left.rounds || right.rounds,
        awry: left.awry || right.awry,
        broken: earlier(left.broken, right.broken),
    })
}

/// What the rules say of a test of a divisor.
fn compare_multiple(
    alloc: Global,
    names: &[Entry],
    scope: &Scope,
    division: &Division<'_>,
) -> Result<Judged, AllocError>
    ensures { IfOk result (λ it. it ≡ tested scope.now (spec.lent division.now) (judged_chain scope.now (map (judged names.now scope.now) division.now.operands.now) division.now.operators.now)) }
{
    let it = judge_chain(alloc, names, scope, division.operands, division.operators)?;
    let place = division.parenthesis.unwrap_or(it.place);
    Ok(it.division(scope, division.divisor, place))
}

/// What the rules say of a comparison, as a form that is compared with 0, or with the multiples of a divisor.
pub fn compare(
    alloc: Global,
    names: &[Entry],
    scope: &Scope,
    part: &Part,
) -> Result<Judged, AllocError>
    ensures { IfOk result (λ it. it ≡ compared names.now scope.now part.now) }
{
    match tested_division(part) {
        Some(division) => compare_multiple(alloc, names, scope, &division),
        None => compare_sides(alloc, names, scope, part),
    }
}

/// What is broken in an index expression.
pub fn check_index(
    alloc: Global,
    names: &[Entry],
    scope: &Scope,
    e: &Expr,
) -> Result<Option<Broken>, AllocError>
    ensures { IfOk result (λ broken. broken ≡ index_broken names.now scope.now e.now) }
{
    Ok(judge(alloc, names, scope, e)?.whole_broken())
}

/// What is broken in several index expressions.
pub fn check_indices(
    alloc: Global,
    names: &[Entry],
    scope: &Scope,
    es: &[Expr],
) -> Result<Option<Broken>, AllocError>
    ensures { IfOk result (λ broken. broken ≡ first_of (map (index_broken names.now scope.now) es.now)) }
{
    let mut broken = None;
    for e in es {
        broken = earlier(broken, check_index(alloc, names, scope, e)?);
    }
    Ok(broken)
}

/// What is broken in a condition.
pub fn check_condition(
    alloc: Global,
    names: &[Entry],
    scope: &Scope,
    parts: &[Part],
) -> Result<Option<Broken>, AllocError>
    ensures { IfOk result (λ broken. broken ≡ condition_broken names.now scope.now parts.now) }
{
    let mut broken = None;
    for part in parts {
        let it = compare(alloc, names, scope, part)?;
        broken = earlier(broken, it.whole_broken());
    }
    Ok(broken)
}

/// An index expression of a program.
pub fn build_index(
    alloc: Global,
    names: &[Entry],
    scope: &Scope,
    e: &Expr,
) -> Result<IndexExpr, AllocError>
    ensures { IfOk result (λ built. built ≡ index names.now scope.now e.now) }
{
    judge(alloc, names, scope, e)?.into_index(alloc, scope)
}

/// Several index expressions of a program.
pub fn build_indices(
    alloc: Global,
    names: &[Entry],
    scope: &Scope,
    es: &[Expr],
) -> Result<Items<IndexExpr>, AllocError>
    ensures { IfOk result (λ built. built ≡ map (index names.now scope.now) es.now) }
{
    let mut built = Items::new(alloc);
    for e in es {
        built.push(build_index(alloc, names, scope, e)?)?;
    }
    Ok(built)
}

/// The same comparisons, and behind them those of a condition of a program.
pub fn add_condition(
    alloc: Global,
    all: Items<Comparison>,
    names: &[Entry],
    scope: &Scope,
    parts: &[Part],
) -> Result<Items<Comparison>, AllocError>
    ensures { IfOk result (λ built. built ≡ all ++ condition names.now scope.now parts.now) }
{
    let mut built = all;
    for part in parts {
        let it = compare(alloc, names, scope, part)?;
        built.push(Comparison {
            form: it.into_index(alloc, scope)?,
            rel: part_rel(part),
        })?;
    }
    Ok(built)
}

/// A condition of a program.
pub fn build_condition(
    alloc: Global,
    names: &[Entry],
    scope: &Scope,
    parts: &[Part],
) -> Result<Items<Comparison>, AllocError>
    ensures { IfOk result (λ built. built ≡ condition names.now scope.now parts.now) }
{
    add_condition(alloc, Items::new(alloc), names, scope, parts)
}
