ghost use Rattle.std.specs.Prelude.{◌≡◌, ◌++◌, map, nat_lt, IfOk};
ghost use Rattle.ac_syntax.specs.ReadyPrograms.{ReadyProgram};
ghost use Rattle.ac_syntax.specs.Small.{IsSmallProgram};
ghost use Rattle.ac_parse_exprs.specs.Comparisons.{first_of, condition};
ghost use Rattle.ac_parse_rules.specs.DeclaredNumbers.{HasConditions, HasDeclaredNumbers, HasInputs, ListsItsParameters};
ghost use Rattle.ac_parse_exprs.specs.Meanings.{declared_meaning};
ghost use Rattle.ac_parse_exprs.specs.Values.{array_number};
ghost use Rattle.ac_parse_rules.specs.Files.{context_parts, commutative_words, line_words, output_words, has_output_line, output_numbers, output_line, output_rule, output_broken, pragma_broken, body_scope, assignments_broken, declarations_broken, body_broken, pragmas_broken, broken_under, arrays_under, body_under, context_under, program_under, names_of, file_broken, program_of, IsAnswer};

use crate::declare::{
    add_local_arrays, build_inputs, build_params, build_slots, check_declared, entries,
    fixed_scope, input_count, param_count,
};
use crate::fault::{RuleFault, fault_of};
use crate::quotients::check_quotients;
use crate::statement::{build_statements, check_statements, target_in};
use ac_base::Items;
use ac_parse_exprs::fault::{Broken, Rule, Which, earlier, rule_broken};
use ac_parse_exprs::value::array_number;
use ac_parse_exprs::{Entry, Meaning, Scope, add_condition, check_condition, declared_meaning};
use ac_parse_grammar::tree::{File, Pragma, Statement, Word};
use ac_syntax::name::Name;
use ac_syntax::tree::{Array, Comparison, Cond, Program, Stmt};
use std::alloc::{AllocError, Global};

/// The rule that an output line breaks with a name of this meaning.
fn output_rule(inputs: usize, meaning: Meaning) -> Option<Rule>
    ensures { result ≡ output_rule inputs meaning }
{
    match meaning {
        Meaning::Array { number, dimensions } => {
            if number < inputs && 0 < dimensions {
                None
            } else {
                Some(Rule::Misused)
            }
        }
        Meaning::LoopName | Meaning::Nothing => Some(Rule::Undeclared),
        _ => Some(Rule::Misused),
    }
}

fn output_broken(names: &[Entry], inputs: usize, word: &Word) -> Option<Broken>
    ensures { result ≡ output_broken names.now inputs word.now }
{
    let rule = output_rule(inputs, declared_meaning(names, &word.name));
    rule_broken(rule, word.place)
}

fn check_outputs(names: &[Entry], inputs: usize, words: &[Word]) -> Option<Broken>
    ensures { result ≡ first_of (map (output_broken names.now inputs) words.now) }
{
    let mut broken = None;
    for word in words {
        broken = earlier(broken, output_broken(names, inputs, word));
    }
    broken
}

fn check_pragma(
    alloc: Global,
    names: &[Entry],
    scope: &Scope,
    inputs: usize,
    pragma: &Pragma,
) -> Result<Option<Broken>, AllocError>
    ensures { IfOk result (λ it. it ≡ pragma_broken names.now scope.now inputs pragma.now) }
{
    match pragma {
        Pragma::Context(parts) => check_condition(alloc, names, scope, parts.as_slice()),
        Pragma::Commutative(_) => Ok(None),
        Pragma::Output(words) => Ok(check_outputs(names, inputs, words.as_slice())),
    }
}

fn check_pragmas(alloc: Global, names: &[Entry], file: &File) -> Result<Option<Broken>, AllocError>
    ensures { IfOk result (λ it. it ≡ pragmas_broken names.now file.now) }
{
    let scope = fixed_scope(alloc, param_count(file.params.as_slice()));
    let inputs = input_count(file.params.as_slice());
    let pragmas = file.pragmas.as_slice();
    let mut broken = None;
    for pragma in pragmas {
        broken = earlier(broken, check_pragma(alloc, names, &scope, inputs, pragma)?);
    }
    Ok(broken)
}

/// The scope outside all loops.
fn body_scope(alloc: Global, params: usize) -> Scope
    ensures { result ≡ body_scope params }
{
    Scope {
        params,
        iterators: Items::new(alloc),
        starting: None,
        fixed: false,
        tested: false,
    }
}

fn assignments_broken(body: &[Statement]) -> Option<Broken>
    ensures { result ≡ assignments_broken body.now }
{
    match target_in(body, 48) {
        Err(_) => None,
        Ok(place) => Some(Broken {
            rule: Rule::Limit(Which::Assignments),
            place,
        }),
    }
}

fn check_declarations(
    alloc: Global,
    names: &[Entry],
    file: &File,
) -> Result<Option<Broken>, AllocError>
    ensures { IfOk result (λ it. it ≡ declarations_broken names.now file.now) }
{
    let params = file.params.as_slice();
    let scope = fixed_scope(alloc, param_count(params));
    let first = check_declared(alloc, names, &scope, 0, params)?;
    let locals = file.locals.as_slice();
    let second = check_declared(alloc, names, &scope, params.len(), locals)?;
    Ok(earlier(first, second))
}

fn check_body(alloc: Global, names: &[Entry], file: &File) -> Result<Option<Broken>, AllocError>
    ensures { IfOk result (λ it. it ≡ body_broken names.now file.now) }
{
    let scope = body_scope(alloc, param_count(file.params.as_slice()));
    let body = file.body.as_slice();
    let first = check_statements(alloc, names, &scope, body)?;
    let crowded = check_quotients(alloc, names, &scope, &[], body)?;
    Ok(earlier(first, earlier(assignments_broken(body), crowded)))
}

/// The first rule that the file breaks.
fn check(alloc: Global, names: &[Entry], file: &File) -> Result<Option<Broken>, AllocError>
    ensures { IfOk result (λ it. it ≡ broken_under names.now file.now) }
{
    let declared = check_declarations(alloc, names, file)?;
    let body = check_body(alloc, names, file)?;
    let pragmas = check_pragmas(alloc, names, file)?;
    Ok(earlier(declared, earlier(body, pragmas)))
}

fn build_context(
    alloc: Global,
    names: &[Entry],
    scope: &Scope,
    pragmas: &[Pragma],
) -> Result<Items<Comparison>, AllocError>
    ensures { IfOk result (λ it. it ≡ condition names.now scope.now (context_parts pragmas.now)) }
{
    let mut all = Items::new(alloc);
    for pragma in pragmas {
        if let Pragma::Context(parts) = pragma {
            all = add_condition(alloc, all, names, scope, parts.as_slice())?;
        }
    }
    Ok(all)
}

fn add_words(alloc: Global, all: Items<Name>, words: &[Word]) -> Result<Items<Name>, AllocError>
    ensures { IfOk result (λ it. it ≡ all ++ map (λ word. word.name) words.now) }
{
    let mut built = all;
    for word in words {
        built.push(word.name.copy(alloc)?)?;
    }
    Ok(built)
}

fn build_commutative(alloc: Global, pragmas: &[Pragma]) -> Result<Items<Name>, AllocError>
    ensures { IfOk result (λ it. it ≡ map (λ word. word.name) (commutative_words pragmas.now)) }
{
    let mut all = Items::new(alloc);
    for pragma in pragmas {
        if let Pragma::Commutative(words) = pragma {
            all = add_words(alloc, all, words.as_slice())?;
        }
    }
    Ok(all)
}

fn add_outputs(
    all: Items<usize>,
    names: &[Entry],
    words: &[Word],
) -> Result<Items<usize>, AllocError>
    ensures { IfOk result (λ it. it ≡ all ++ output_numbers names.now words.now) }
{
    let mut built = all;
    for word in words {
        built.push(array_number(declared_meaning(names, &word.name)))?;
    }
    Ok(built)
}

/// The names of an output line; other lines have none.
fn line_words(pragma: &Pragma) -> &[Word]
    ensures { result.now ≡ line_words pragma.now }
{
    match pragma {
        Pragma::Output(words) => words.as_slice(),
        _ => &[],
    }
}

fn build_outputs(
    alloc: Global,
    names: &[Entry],
    pragmas: &[Pragma],
) -> Result<Items<usize>, AllocError>
    ensures { IfOk result (λ it. it ≡ output_numbers names.now (output_words pragmas.now)) }
{
    let mut all = Items::new(alloc);
    for pragma in pragmas {
        all = add_outputs(all, names, line_words(pragma))?;
    }
    Ok(all)
}

fn has_output_line(pragmas: &[Pragma]) -> bool
    ensures { result ≡ has_output_line pragmas.now }
{
    for pragma in pragmas {
        if let Pragma::Output(_) = pragma {
            return true;
        }
    }
    false
}

fn build_output_line(
    alloc: Global,
    names: &[Entry],
    pragmas: &[Pragma],
) -> Result<Option<Items<usize>>, AllocError>
    ensures { IfOk result (λ it. it ≡ output_line names.now pragmas.now) }
{
    if has_output_line(pragmas) {
        Ok(Some(build_outputs(alloc, names, pragmas)?))
    } else {
        Ok(None)
    }
}

fn build_arrays(alloc: Global, names: &[Entry], file: &File) -> Result<Items<Array>, AllocError>
    ensures { IfOk result (λ it. it ≡ arrays_under names.now file.now) }
{
    let params = file.params.as_slice();
    let scope = fixed_scope(alloc, param_count(params));
    let inputs = build_inputs(alloc, names, &scope, params)?;
    let body = file.body.as_slice();
    let locals = file.locals.as_slice();
    add_local_arrays(alloc, inputs, names, &scope, body, params.len(), locals)
}

fn build_body(alloc: Global, names: &[Entry], file: &File) -> Result<Items<Stmt>, AllocError>
    ensures { IfOk result (λ it. it ≡ body_under names.now file.now) }
{
    let scope = body_scope(alloc, param_count(file.params.as_slice()));
    build_statements(alloc, names, &scope, file.body.as_slice())
}

fn build_cond(alloc: Global, names: &[Entry], file: &File) -> Result<Cond, AllocError>
    ensures { IfOk result (λ it. it ≡ record { parts = context_under names.now file.now }) }
{
    let scope = fixed_scope(alloc, param_count(file.params.as_slice()));
    let parts = build_context(alloc, names, &scope, file.pragmas.as_slice())?;
    Ok(Cond { parts })
}

/// The program of the file.
fn build(alloc: Global, names: &[Entry], file: &File) -> Result<Program, AllocError>
    ensures { IfOk result (λ it. it ≡ program_under names.now file.now) }
{
    Ok(Program {
        name: file.name.name.copy(alloc)?,
        params: build_params(alloc, file.params.as_slice())?,
        arrays: build_arrays(alloc, names, file)?,
        slots: build_slots(alloc, file.params.as_slice())?,
        body: build_body(alloc, names, file)?,
        context: build_cond(alloc, names, file)?,
        commutative: build_commutative(alloc, file.pragmas.as_slice())?,
        outputs: build_output_line(alloc, names, file.pragmas.as_slice())?,
    })
}

fn names_of(alloc: Global, file: &File) -> Result<Items<Entry>, AllocError>
    ensures { IfOk result (λ it. it ≡ names_of file.now) }
{
    let (params, locals) = (file.params.as_slice(), file.locals.as_slice());
    entries(alloc, params, locals, file.body.as_slice())
}

/// The program of a source tree.
///
/// Ok exactly where no rule is broken, apart from want of memory. Otherwise the fault is the first rule that is broken: the
/// one at the least place, and of several at one place the first in the order of `RuleFault`'s variants, limits in the order
/// of `Which`.
pub fn apply(alloc: Global, file: &File) -> Result<Program, RuleFault>
    ensures answer { IsAnswer file.now result }

    // Index expressions have a coefficient for each parameter and iterator, divisors are at least 1, loops end, and branches have conditions.
    ensures ready { HasConditions file.now → IfOk result ReadyProgram }
    // Each number of an array or a parameter is one that the program has.
    ensures declared { IfOk result HasDeclaredNumbers }
    ensures parameters { IfOk result ListsItsParameters }
    ensures inputs { IfOk result HasInputs }
    // Constants and coefficients are within the limits, and so are parameters and loops.
    ensures small { IfOk result IsSmallProgram }
{
    let names = names_of(alloc, file)?;
    match check(alloc, names.as_slice(), file)? {
        Some(broken) => Err(fault_of(broken)),
        None => Ok(build(alloc, names.as_slice(), file)?),
    }
}
