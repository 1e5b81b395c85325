ghost use Rattle.std.specs.Prelude.{◌≡◌, ◌++◌, ◌+◌, ◌<◌, ◌≤◌, ◌^◌, [], ◌∷◌, length, take, map, filter, nat_eq, not, count_by, IfOk, OnOk};
ghost use Rattle.std.specs.List.{list_any};
ghost use Rattle.ac_syntax.specs.declared.tree.Kind.TheVariants.{Input, Local};
ghost use Rattle.ac_parse_exprs.specs.Comparisons.{first_from, first_of, index, index_broken};
ghost use Rattle.ac_parse_rules.specs.Declarations.{runs, is_whole, is_loop_name, entry, count, param_meaning, param_entries, local_meaning, local_entries, param_count, input_count, entries, fixed_scope, is_declared, count_broken, dimensions_broken, extents_broken, name_broken, declared_broken, each_declared_broken, array_of, arrays_from, slot_of, slots_from, param_names};

use ac_base::Items;
use ac_parse_exprs::fault::{Broken, Rule, Which, broken_where, earlier};
use ac_parse_exprs::{Entry, Meaning, Scope, build_index, check_index, declared_meaning};
use ac_parse_grammar::tree::{Declared, Extent, Statement};
use ac_syntax::name::Name;
use ac_syntax::tree::{Array, IndexExpr, Kind, Place, Slot};
use std::alloc::{AllocError, Global};

/// Whether some loop without a type runs the name.
#[cycle(runs)]
#[tactic(auto, using(crate::proofs::Running::running))]
fn runs(name: &Name, statement: &Statement) -> bool
    ensures { result ≡ runs name.now statement.now }
{
    match statement {
        Statement::Loop {
            typed,
            name: own,
            body,
            ..
        } => !*typed && own.name == *name || runs_any(name, body.as_slice()),
        Statement::Branch { taken, other, .. } => {
            runs_any(name, taken.as_slice()) || runs_any(name, other.as_slice())
        }
        Statement::Assign { .. } => false,
    }
}

/// Whether one of the statements has such a loop.
#[cycle(runs)]
fn runs_any(name: &Name, statements: &[Statement]) -> bool
    ensures { result ≡ list_any (runs name.now) statements.now }
{
    for statement in statements {
        if runs(name, statement) {
            return true;
        }
    }
    false
}

/// Whether it is an integer parameter, if it is a parameter.
pub fn is_whole(declared: &Declared) -> bool
    ensures { result ≡ is_whole declared.now }
{
    declared.whole && declared.extents.len() == 0
}

/// Whether it is a local that some loop without a type runs, and so no scalar.
pub fn is_loop_name(body: &[Statement], declared: &Declared) -> bool
    ensures { result ≡ is_loop_name body.now declared.now }
{
    is_whole(declared) && runs_any(&declared.name.name, body)
}

fn count(b: bool) -> usize
    ensures { result ≡ count b }
{
    if b { 1 } else { 0 }
}

fn param_meaning(declared: &Declared, params: usize, arrays: usize) -> Meaning
    ensures { result ≡ param_meaning declared.now params arrays }
{
    if is_whole(declared) {
        Meaning::Parameter(params)
    } else {
        Meaning::Array {
            number: arrays,
            dimensions: declared.extents.len(),
        }
    }
}

fn local_meaning(body: &[Statement], declared: &Declared, arrays: usize) -> Meaning
    ensures { result ≡ local_meaning body.now declared.now arrays }
{
    if is_loop_name(body, declared) {
        Meaning::LoopName
    } else {
        Meaning::Array {
            number: arrays,
            dimensions: declared.extents.len(),
        }
    }
}

fn new_entry(alloc: Global, declared: &Declared, meaning: Meaning) -> Result<Entry, AllocError>
    ensures { IfOk result (λ it. it ≡ entry declared.now meaning) }
{
    Ok(Entry {
        name: declared.name.name.copy(alloc)?,
        meaning,
    })
}

fn param_entries(alloc: Global, params: &[Declared]) -> Result<Items<Entry>, AllocError>
    ensures { IfOk result (λ it. it ≡ param_entries params.now 0 0) }
{
    let mut entries = Items::new(alloc);
    let mut numbers = 0usize;
    let mut arrays = 0usize;
    for declared in params {
        let meaning = param_meaning(declared, numbers, arrays);
        entries.push(new_entry(alloc, declared, meaning)?)?;
        numbers += count(is_whole(declared));
        arrays += count(!is_whole(declared));
    }
    Ok(entries)
}

fn add_locals(
    alloc: Global,
    entries: Items<Entry>,
    body: &[Statement],
    locals: &[Declared],
    inputs: usize,
) -> Result<Items<Entry>, AllocError>
    requires { inputs < 2 ^ 63 }
    ensures { IfOk result (λ it. it ≡ entries ++ local_entries body.now locals.now inputs) }
{
    let mut all = entries;
    let mut arrays = inputs;
    for declared in locals {
        let meaning = local_meaning(body, declared, arrays);
        all.push(new_entry(alloc, declared, meaning)?)?;
        arrays += count(!is_loop_name(body, declared));
    }
    Ok(all)
}

/// How many integer parameters there are.
pub fn param_count(params: &[Declared]) -> usize
    ensures value { result ≡ param_count params.now }
    ensures within { result ≤ length params.now }
{
    let mut n = 0usize;
    for declared in params {
        n += count(is_whole(declared));
    }
    n
}

/// How many parameters are arrays or scalars.
pub fn input_count(params: &[Declared]) -> usize
    ensures value { result ≡ input_count params.now }
    ensures within { result ≤ length params.now }
{
    let mut n = 0usize;
    for declared in params {
        n += count(!is_whole(declared));
    }
    n
}

/// The declared names, in order, and what they mean.
pub fn entries(
    alloc: Global,
    params: &[Declared],
    locals: &[Declared],
    body: &[Statement],
) -> Result<Items<Entry>, AllocError>
    ensures { IfOk result (λ it. it ≡ entries params.now locals.now body.now) }
{
    let first = param_entries(alloc, params)?;
    add_locals(alloc, first, body, locals, input_count(params))
}

/// The scope of extents and contexts, where only parameters may stand.
pub fn fixed_scope(alloc: Global, params: usize) -> Scope
    ensures { result ≡ fixed_scope params }
{
    Scope {
        params,
        iterators: Items::new(alloc),
        starting: None,
        fixed: true,
        tested: false,
    }
}

/// Whether one of the entries has the name.
pub fn is_declared(names: &[Entry], name: &Name) -> bool
    ensures { result ≡ is_declared names.now name.now }
{
    for entry in names {
        if entry.name == *name {
            return true;
        }
    }
    false
}

fn count_broken(meaning: Meaning, place: Place) -> Option<Broken>
    ensures { result ≡ count_broken meaning place }
{
    match meaning {
        Meaning::Parameter(k) => broken_where(k > 3, Rule::Limit(Which::Parameters), place),
        Meaning::Array { number, .. } => {
            broken_where(number > 31, Rule::Limit(Which::Arrays), place)
        }
        _ => None,
    }
}

fn dimensions_broken(extents: &[Extent]) -> Option<Broken>
    ensures { result ≡ dimensions_broken extents.now }
{
    match extents.get(4) {
        None => None,
        Some(extent) => Some(Broken {
            rule: Rule::Limit(Which::Dimensions),
            place: extent.place,
        }),
    }
}

fn check_extents(
    alloc: Global,
    visible: &[Entry],
    scope: &Scope,
    extents: &[Extent],
) -> Result<Option<Broken>, AllocError>
    ensures { IfOk result (λ it. it ≡ extents_broken visible.now scope.now extents.now) }
{
    let mut broken = None;
    for extent in extents {
        let next = check_index(alloc, visible, scope, &extent.size)?;
        broken = earlier(broken, next);
    }
    Ok(broken)
}

/// The entries of the names that were declared before the one with the number `k`.
fn before(names: &[Entry], k: usize) -> &[Entry]
    ensures { result.now ≡ take k names.now }
{
    if k < names.len() { &names[..k] } else { names }
}

fn name_broken(names: &[Entry], k: usize, declared: &Declared) -> Option<Broken>
    ensures { result ≡ name_broken names.now k declared.now }
{
    let name = &declared.name.name;
    let place = declared.name.place;
    let again = is_declared(before(names, k), name);
    let twice = broken_where(again, Rule::Duplicate, place);
    earlier(twice, count_broken(declared_meaning(names, name), place))
}

fn check_one(
    alloc: Global,
    names: &[Entry],
    scope: &Scope,
    k: usize,
    declared: &Declared,
) -> Result<Option<Broken>, AllocError>
    ensures { IfOk result (λ it. it ≡ declared_broken names.now scope.now k declared.now) }
{
    let extents = declared.extents.as_slice();
    let inside = check_extents(alloc, before(names, k), scope, extents)?;
    let rest = earlier(dimensions_broken(extents), inside);
    Ok(earlier(name_broken(names, k, declared), rest))
}

/// What is broken in declarations, of which the first has the number `first`.
pub fn check_declared(
    alloc: Global,
    names: &[Entry],
    scope: &Scope,
    first: usize,
    declared: &[Declared],
) -> Result<Option<Broken>, AllocError>
    requires { first < 2 ^ 63 }
    ensures { IfOk result (λ it. it ≡ first_of (each_declared_broken names.now scope.now first declared.now)) }
{
    let mut broken = None;
    for (i, one) in declared.iter().enumerate() {
        let next = check_one(alloc, names, scope, first + i, one)?;
        broken = earlier(broken, next);
    }
    Ok(broken)
}

fn build_extents(
    alloc: Global,
    visible: &[Entry],
    scope: &Scope,
    extents: &[Extent],
) -> Result<Items<IndexExpr>, AllocError>
    ensures { IfOk result (λ it. it ≡ map (λ extent. index visible.now scope.now extent.size) extents.now) }
{
    let mut built = Items::new(alloc);
    for extent in extents {
        built.push(build_index(alloc, visible, scope, &extent.size)?)?;
    }
    Ok(built)
}

/// An array or a scalar, declared as the one with the number `k`.
pub fn build_array(
    alloc: Global,
    names: &[Entry],
    scope: &Scope,
    kind: Kind,
    k: usize,
    declared: &Declared,
) -> Result<Array, AllocError>
    ensures { IfOk result (λ it. it ≡ array_of names.now scope.now kind k declared.now) }
{
    Ok(Array {
        name: declared.name.name.copy(alloc)?,
        extents: build_extents(alloc, before(names, k), scope, declared.extents.as_slice())?,
        kind,
    })
}

/// The arrays and scalars of a parameter list.
pub fn build_inputs(
    alloc: Global,
    names: &[Entry],
    scope: &Scope,
    params: &[Declared],
) -> Result<Items<Array>, AllocError>
    ensures { IfOk result (λ it. it ≡ arrays_from names.now scope.now Input is_whole 0 params.now) }
{
    let mut arrays = Items::new(alloc);
    for (k, declared) in params.iter().enumerate() {
        if !is_whole(declared) {
            let array = build_array(alloc, names, scope, Kind::Input, k, declared)?;
            arrays.push(array)?;
        }
    }
    Ok(arrays)
}

/// The same arrays, and behind them those of the locals, of which the first was declared with the number `first`.
pub fn add_local_arrays(
    alloc: Global,
    inputs: Items<Array>,
    names: &[Entry],
    scope: &Scope,
    body: &[Statement],
    first: usize,
    locals: &[Declared],
) -> Result<Items<Array>, AllocError>
    requires { first < 2 ^ 63 }
    ensures { IfOk result (λ it. it ≡ inputs ++ arrays_from names.now scope.now Local (is_loop_name body.now) first locals.now) }
{
    let mut arrays = inputs;
    for (i, declared) in locals.iter().enumerate() {
        if !is_loop_name(body, declared) {
            let array = build_array(alloc, names, scope, Kind::Local, first + i, declared)?;
            arrays.push(array)?;
        }
    }
    Ok(arrays)
}

fn slot(declared: &Declared, params: usize, arrays: usize) -> Slot
    ensures { result ≡ slot_of declared.now params arrays }
{
    if is_whole(declared) {
        Slot::Param(params)
    } else {
        Slot::Array(arrays)
    }
}

/// The parameter list.
pub fn build_slots(alloc: Global, params: &[Declared]) -> Result<Items<Slot>, AllocError>
    ensures { IfOk result (λ it. it ≡ slots_from params.now 0 0) }
{
    let mut slots = Items::new(alloc);
    let mut numbers = 0usize;
    let mut arrays = 0usize;
    for declared in params {
        slots.push(slot(declared, numbers, arrays))?;
        numbers += count(is_whole(declared));
        arrays += count(!is_whole(declared));
    }
    Ok(slots)
}

/// The names of the integer parameters.
pub fn build_params(alloc: Global, params: &[Declared]) -> Result<Items<Name>, AllocError>
    ensures { IfOk result (λ it. it ≡ param_names params.now) }
{
    let mut names = Items::new(alloc);
    for declared in params {
        if is_whole(declared) {
            names.push(declared.name.name.copy(alloc)?)?;
        }
    }
    Ok(names)
}
