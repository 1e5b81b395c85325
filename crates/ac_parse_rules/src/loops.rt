ghost use Rattle.std.specs.Prelude.{◌≡◌, ◌∷◌, ◌*ℤ◌, IfOk};
ghost use Rattle.ac_syntax.specs.Turns.{bounds_by, innermost};
ghost use Rattle.ac_syntax.specs.declared.tree.Stmt.TheVariants.{For};
ghost use Rattle.ac_parse_exprs.specs.Comparisons.{compared, index, condition};
ghost use Rattle.ac_parse_rules.specs.Statements.{inside, in_test, in_start, is_running, untyped_rule, loop_rule, other_rule, step_word_broken, source_broken, step_broken, step_number, form_bounds, may_bound, is_endless, head_broken};

use crate::declare::is_declared;
use ac_base::Items;
use ac_parse_exprs::fault::{Broken, Rule, Which, broken_where, earlier, rule_broken};
use ac_parse_exprs::{
    Collected, Entry, Judged, Meaning, Scope, build_condition, build_index, check_condition,
    check_index, coefficient, compare, declared_meaning, is_long, iterator_number, part_rel,
};
use ac_parse_grammar::tree::{Expr, Part, Step, Word};
use ac_syntax::name::Name;
use ac_syntax::tree::{Cond, IndexExpr, Place, Rel, Stmt};
use std::alloc::{AllocError, Global};

/// The same names, in order, behind another.
fn in_front(alloc: Global, name: &Name, names: &[Name]) -> Result<Items<Name>, AllocError>
    ensures { IfOk result (λ all. all ≡ name.now ∷ names.now) }
{
    let mut all = Items::new(alloc);
    all.push(name.copy(alloc)?)?;
    for other in names {
        all.push(other.copy(alloc)?)?;
    }
    Ok(all)
}

fn copy_names(alloc: Global, names: &[Name]) -> Result<Items<Name>, AllocError>
    ensures { IfOk result (λ all. all ≡ names.now) }
{
    let mut all = Items::new(alloc);
    for other in names {
        all.push(other.copy(alloc)?)?;
    }
    Ok(all)
}

/// The scope inside a loop.
pub fn inside(alloc: Global, scope: &Scope, name: &Name) -> Result<Scope, AllocError>
    ensures { IfOk result (λ inner. inner ≡ inside scope.now name.now) }
{
    Ok(Scope {
        params: scope.params,
        iterators: in_front(alloc, name, scope.iterators.as_slice())?,
        starting: None,
        fixed: scope.fixed,
        tested: false,
    })
}

/// The scope of a loop's condition.
pub fn in_test(alloc: Global, scope: &Scope, name: &Name) -> Result<Scope, AllocError>
    ensures { IfOk result (λ test. test ≡ in_test scope.now name.now) }
{
    Ok(Scope {
        params: scope.params,
        iterators: in_front(alloc, name, scope.iterators.as_slice())?,
        starting: None,
        fixed: scope.fixed,
        tested: true,
    })
}

/// The scope of a loop's start.
pub fn in_start(alloc: Global, scope: &Scope, typed: bool, name: &Name) -> Result<Scope, AllocError>
    ensures { IfOk result (λ start. start ≡ in_start scope.now typed name.now) }
{
    let starting = if typed { None } else { Some(name.copy(alloc)?) };
    Ok(Scope {
        params: scope.params,
        iterators: copy_names(alloc, scope.iterators.as_slice())?,
        starting,
        fixed: scope.fixed,
        tested: false,
    })
}

fn is_running(scope: &Scope, name: &Name) -> bool
    ensures { result ≡ is_running scope.now name.now }
{
    iterator_number(scope.iterators.as_slice(), name).is_some()
}

fn loop_rule(names: &[Entry], scope: &Scope, typed: bool, name: &Name) -> Option<Rule>
    ensures { result ≡ loop_rule names.now scope.now typed name.now }
{
    if typed {
        if is_declared(names, name) || is_running(scope, name) {
            Some(Rule::Duplicate)
        } else {
            None
        }
    } else {
        untyped_rule(declared_meaning(names, name), is_running(scope, name))
    }
}

/// The rule that a loop without a type breaks with this name.
fn untyped_rule(meaning: Meaning, running: bool) -> Option<Rule>
    ensures { result ≡ untyped_rule meaning running }
{
    match meaning {
        Meaning::LoopName => { if running { Some(Rule::Duplicate) } else { None } }
        Meaning::Nothing => {
            if running {
                Some(Rule::Misused)
            } else {
                Some(Rule::Undeclared)
            }
        }
        _ => Some(Rule::Misused),
    }
}

/// The rule that a step breaks with another name.
fn other_rule(meaning: Meaning) -> Rule
    ensures { result ≡ other_rule meaning }
{
    match meaning {
        Meaning::LoopName | Meaning::Nothing => Rule::Undeclared,
        _ => Rule::Misused,
    }
}

fn step_word_broken(names: &[Entry], scope: &Scope, name: &Name, word: &Word) -> Option<Broken>
    ensures { result ≡ step_word_broken names.now scope.now name.now word.now }
{
    if word.name == *name {
        None
    } else {
        let rule = other_rule(scope.meaning(names, &word.name));
        rule_broken(Some(rule), word.place)
    }
}

fn source_broken(
    names: &[Entry],
    scope: &Scope,
    name: &Name,
    source: &Option<Word>,
) -> Option<Broken>
    ensures { result ≡ source_broken names.now scope.now name.now source.now }
{
    match source {
        None => None,
        Some(word) => step_word_broken(names, scope, name, word),
    }
}

fn step_broken(names: &[Entry], scope: &Scope, name: &Name, step: &Step) -> Option<Broken>
    ensures { result ≡ step_broken names.now scope.now name.now step.now }
{
    let target = step_word_broken(names, scope, name, &step.target);
    let source = source_broken(names, scope, name, &step.source);
    let limit = Rule::Limit(Which::Literal);
    let long = broken_where(is_long(&step.by), limit, step.by.place);
    earlier(earlier(target, source), long)
}

/// What is added in each step.
fn step_number(step: &Step) -> i64
    ensures { result ≡ step_number step.now }
{
    let by = i64::from(step.by.number);
    if step.down { -by } else { by }
}

/// The coefficient of the innermost iterator.
#[tactic(auto, using(ac_parse_exprs::proofs::Columns::innermost_at))]
fn innermost(iters: &[i128]) -> i128
    ensures { result ≡ innermost iters.now }
{
    coefficient(iters, iters.len().saturating_sub(1))
}

fn bounds_by(rel: Rel, coefficient: i128, step: i64) -> bool
    ensures { result ≡ bounds_by rel (coefficient *ℤ step) }
{
    match rel {
        Rel::Zero => coefficient != 0 && step != 0,
        Rel::Divides(_) => false,
        Rel::NonNegative => coefficient < 0 && step > 0 || coefficient > 0 && step < 0,
    }
}

/// Whether a comparison of this form bounds the innermost iterator; one without a form might.
fn form_bounds(step: i64, rel: Rel, form: &Collected) -> bool
    ensures { result ≡ form_bounds step rel form.now }
{
    match form {
        Collected::Known(known) => bounds_by(rel, innermost(known.iters.as_slice()), step),
        _ => true,
    }
}

/// Whether a comparison bounds the innermost iterator; one that breaks a rule, or has a part beyond the limit, might.
fn may_bound(step: i64, rel: Rel, judged: &Judged) -> bool
    ensures { result ≡ may_bound step rel judged.now }
{
    judged.large || form_bounds(step, rel, &judged.form)
}

fn is_endless(
    alloc: Global,
    names: &[Entry],
    scope: &Scope,
    step: &Step,
    cond: &[Part],
) -> Result<bool, AllocError>
    ensures { IfOk result (λ endless. endless ≡ is_endless names.now scope.now step.now cond.now) }
{
    if step.by.number == 0 {
        return Ok(true);
    }
    for part in cond {
        let it = compare(alloc, names, scope, part)?;
        if may_bound(step_number(step), part_rel(part), &it) {
            return Ok(false);
        }
    }
    Ok(true)
}

/// A loop but for its body.
#[derive(Clone, Copy)]
pub struct Head<'a> {
    pub typed: bool,
    pub name: &'a Word,
    pub start: &'a Expr,
    pub cond: &'a [Part],
    pub step: &'a Step,
    pub place: Place,
}

impl<'a> Head<'a> {
    /// The head of these parts.
    pub fn new(
        typed: bool,
        name: &'a Word,
        start: &'a Expr,
        cond: &'a [Part],
        step: &'a Step,
        place: Place,
    ) -> Head<'a>
        ensures typed { result.typed ≡ typed }
        ensures name { result.name.now ≡ name.now }
        ensures start { result.start.now ≡ start.now }
        ensures cond { result.cond.now ≡ cond.now }
        ensures step { result.step.now ≡ step.now }
        ensures place { result.place ≡ place }
    {
        Head {
            typed,
            name,
            start,
            cond,
            step,
            place,
        }
    }
}

/// What is broken in a loop but for its body.
pub fn check_head(
    alloc: Global,
    names: &[Entry],
    scope: &Scope,
    head: Head<'_>,
) -> Result<Option<Broken>, AllocError>
    ensures { IfOk result (λ it. it ≡ head_broken names.now scope.now head.entry.typed head.entry.name.now head.entry.start.now head.entry.cond.now head.entry.step.now head.entry.place) }
{
    let name = &head.name.name;
    let test = in_test(alloc, scope, name)?;
    let deep = scope.iterators.len() > 5;
    let depth = broken_where(deep, Rule::Limit(Which::Depth), head.place);
    let endless = is_endless(alloc, names, &test, head.step, head.cond)?;
    let place = earlier(depth, broken_where(endless, Rule::Endless, head.place));
    let rule = loop_rule(names, scope, head.typed, name);
    let named = rule_broken(rule, head.name.place);
    let outer = in_start(alloc, scope, head.typed, name)?;
    let begun = earlier(named, check_index(alloc, names, &outer, head.start)?);
    let cond = check_condition(alloc, names, &test, head.cond)?;
    let rest = earlier(cond, step_broken(names, &test, name, head.step));
    Ok(earlier(place, earlier(begun, rest)))
}

/// The scope inside a loop, and the loop but for its body.
#[derive(Drop)]
pub struct Begun {
    pub inner: Scope,
    iter: Name,
    start: IndexExpr,
    cond: Cond,
    step: i64,
}

/// Begins a loop of the program.
pub fn begin(
    alloc: Global,
    names: &[Entry],
    scope: &Scope,
    head: Head<'_>,
) -> Result<Begun, AllocError>
    ensures { IfOk result (λ it. it ≡ record { inner = inside scope.now head.entry.name.now.name; iter = head.entry.name.now.name; start = index names.now (in_start scope.now head.entry.typed head.entry.name.now.name) head.entry.start.now; cond = record { parts = condition names.now (in_test scope.now head.entry.name.now.name) head.entry.cond.now }; step = step_number head.entry.step.now }) }
{
    let name = &head.name.name;
    let outer = in_start(alloc, scope, head.typed, name)?;
    let start = build_index(alloc, names, &outer, head.start)?;
    let test = in_test(alloc, scope, name)?;
    let parts = build_condition(alloc, names, &test, head.cond)?;
    Ok(Begun {
        inner: inside(alloc, scope, name)?,
        iter: name.copy(alloc)?,
        start,
        cond: Cond { parts },
        step: step_number(head.step),
    })
}

impl Begun {
    /// The loop with its body.
    pub fn with_body(self, body: Items<Stmt>, place: Place) -> Stmt
        ensures { result ≡ For self.iter self.start self.cond self.step body place }
    {
        Stmt::For {
            iter: self.iter,
            start: self.start,
            cond: self.cond,
            step: self.step,
            body,
            place,
        }
    }
}
