ghost use Rattle.std.specs.Prelude.{◌≡◌, ℕ, ◌+◌, ℤ, List, pos, ◌≤ℤ◌, ◌-ℤ◌, length, IfOk, IfErr, true, MatchResult, Option, None};
ghost use Rattle.ac_forms.specs.Fits.{fits};
ghost use Rattle.ac_forms.specs.Rows.{IsWellMade};
ghost use Rattle.ac_forms.specs.declared.conj.Conj.{Conj};
ghost use Rattle.ac_omega_steps.specs.IntegerPoints.{IsPoint};
ghost use Rattle.ac_cert.specs.declared.types.Rule.{Rule};
ghost use Rattle.ac_cert.specs.Rules.{class_row, first_of, is_partition, with_row};
ghost use Rattle.ac_cert.specs.AcceptedTrees.{after_steps};
ghost use Rattle.ac_cert.specs.CheckStops.{RefusedBy, at_node, Fails, Checked};
ghost use Rattle.ac_cert.specs.CertificateFaults.{Onward, later, path_fault, fault_of, node_count, tree_fault, size_of, kids_fault, kids_size};
ghost use Rattle.ac_cert.specs.Cover.{IsCovered, AtSomeEnd};

use crate::steps::{apply_onto, class_row, has_class, push, side_rows};
use crate::types::{EndStop, Next, Rule, Step, Tree, TreeFault};
use ac_base::Items;
use ac_forms::{Conj, Form, Row};
use std::alloc::{AllocError, Global};

/// What stands at the end of a path.
pub trait End {
    type Env;

    /// What an end says of a point.
    ghost means: { Self → Self.Env → List ℤ → Type 0 };

    /// The rule by which an end of a conjunction is refused.
    ghost refusal: { Self → Self.Env → Conj → Option Rule };

    /// Whether the end is accepted, at the rows of its path.
    fn check(&self, alloc: Global, env: &Self::Env, rows: &Conj) -> Result<(), EndStop>
        requires { IsWellMade rows.now }
        ensures { RefusedBy (refusal self.now env.now rows.now) result };

    /// An end that is accepted holds at each integer point of its rows.
    ghost sound: { (e : Self) (env : Self.Env) (c : Conj) (p : List ℤ) → refusal e env c ≡ None → IsWellMade c → IsPoint c p → means e env p };
}

impl EndStop {
    /// The fault at a node.
    pub fn at(self, node: u64) -> TreeFault
        ensures { result ≡ at_node self node }
    {
        match self {
            EndStop::Refused(rule) => TreeFault::Refused { node, rule },
            EndStop::Memory(want) => TreeFault::Memory(want),
        }
    }
}

/// The rows behind a path of steps, and the number of the node there, where the first step has the number `node`.
///
/// The clauses hold for whatever comes behind the path. The conjunction's rows stay, and further ones stand behind them.
pub fn walk(alloc: Global, conj: Conj, steps: &[Step], node: u64) -> Result<(Conj, u64), TreeFault>
    requires { IsWellMade conj }
    ensures rows { IfOk result (λ r. after_steps steps.now conj ≡ Some r.0) }
    ensures goes_on { IfOk result (λ r. (go : Onward) → path_fault steps.now go conj node ≡ go r.0 r.1) }
    ensures made { IfOk result (λ r. IsWellMade r.0) }
    ensures number { IfOk result (λ r. r.1 ≡ later node (length steps.now)) }
    ensures fails { IfErr result (λ e. (go : Onward) → Fails (path_fault steps.now go conj node) e) }
{
    let mut here = conj;
    let mut at = node;
    for s in steps {
        match apply_onto(alloc, here, s) {
            Ok(next) => here = next,
            Err(stop) => return Err(stop.at(at)),
        }
        at = at.saturating_add(1);
    }
    Ok((here, at))
}

/// A conjunction's first columns and rows. It takes no memory.
fn first_of(conj: Conj, columns: usize, count: usize) -> Conj
    ensures { result ≡ first_of columns count conj }
{
    let mut rows = conj.rows.into_vec();
    rows.truncate(count);
    Conj {
        columns,
        rows: Items::from(rows),
    }
}

/// The rows of a child of a branch: those of the path and a further one.
fn child_of(conj: Conj, row: Row) -> Result<Conj, AllocError>
    requires { IsWellMade (with_row conj row) }
    ensures value { IfOk result (λ child. child ≡ with_row conj row) }
    ensures made { IfOk result (λ child. IsWellMade child) }
{
    push(conj, row)
}

/// The conjunction again and the number behind the tree, if no node of it fails. The rows of the path are one list, to
/// which a step or a branch adds at the end, and which is cut back behind it.
#[cycle(checks)]
fn check_at<E: End>(
    alloc: Global,
    conj: Conj,
    tree: &Tree<E>,
    env: &E::Env,
    node: u64,
) -> Result<(Conj, u64), TreeFault>
    requires { IsWellMade conj }
    ensures { Checked (tree_fault tree.now (λ e c. E.refusal e env.now c) conj node) conj (later node (size_of tree.now)) result }
{
    let columns = conj.columns;
    let count = conj.rows.len();
    match walk(alloc, conj, tree.steps.as_slice(), node) {
        Err(e) => Err(e),
        Ok((here, at)) => match check_next(alloc, here, &tree.next, env, at) {
            Err(e) => Err(e),
            Ok((here, behind)) => Ok((first_of(here, columns, count), behind)),
        },
    }
}

/// The same behind a path.
#[cycle(checks)]
fn check_next<E: End>(
    alloc: Global,
    conj: Conj,
    next: &Next<E>,
    env: &E::Env,
    node: u64,
) -> Result<(Conj, u64), TreeFault>
    requires { IsWellMade conj }
    ensures { Checked (fault_of next.now (λ e c. E.refusal e env.now c) conj node) conj (later node (node_count next.now)) result }
{
    match next {
        Next::End(e) => match e.check(alloc, env, &conj) {
            Ok(()) => Ok((conj, node.saturating_add(1))),
            Err(stop) => Err(stop.at(node)),
        },
        Next::Split(e, left, right) => {
            let (low, high) = match side_rows(alloc, e, conj.columns) {
                Ok(both) => both,
                Err(stop) => return Err(stop.at(node)),
            };
            let columns = conj.columns;
            let count = conj.rows.len();
            let first = child_of(conj, low)?;
            let (first, behind) = match check_at(alloc, first, left, env, node.saturating_add(1)) {
                Ok(checked) => checked,
                Err(e) => return Err(e),
            };
            let second = child_of(first_of(first, columns, count), high)?;
            match check_at(alloc, second, right, env, behind) {
                Err(e) => Err(e),
                Ok((second, behind)) => Ok((first_of(second, columns, count), behind)),
            }
        }
        Next::Residue(m, e, kids) => {
            if !stands(m, e, kids.len(), conj.columns) {
                return Err(TreeFault::Refused {
                    node,
                    rule: Rule::Residue,
                });
            }
            check_kids(alloc, conj, m, e, kids, env, node.saturating_add(1))
        }
    }
}

/// Whether a residue branch with this number of children stands.
#[tactic(auto, unfolding(crate::specs::Rules::is_partition), using(ac_base::proofs::Bits::again_128))]
fn stands(m: &i128, e: &Form, count: usize, columns: usize) -> bool
    ensures { result ≡ is_partition m.now e.now columns count }
{
    if *m != count as i128 {
        return false;
    }
    let last = *m - 1;
    has_class(m, e, &last, columns)
}

/// Shows that the constant of a form is one of `i128`.
#[tactic(auto, using(ac_omega_steps::proofs::Fitting::fits_true))]
fn see_constant(e: &Form)
    ensures { fits e.now.konst ≡ true }
{
    let _konst = e.konst();
}

/// The row of child `r` of a residue branch that stands.
#[tactic(auto, using(ac_base::proofs::Bits::again_128))]
fn child_row(alloc: Global, m: &i128, e: &Form, r: usize) -> Result<Row, AllocError>
    requires { fits (e.now.konst -ℤ pos r) ≡ true }
    ensures { IfOk result (λ row. row ≡ class_row m.now e.now (pos r)) }
{
    let number = r as i128;
    class_row(alloc, m, e, &number)
}

/// The same of the children of a residue branch.
#[cycle(checks)]
fn check_kids<E: End>(
    alloc: Global,
    conj: Conj,
    m: &i128,
    e: &Form,
    kids: &[Tree<E>],
    env: &E::Env,
    node: u64,
) -> Result<(Conj, u64), TreeFault>
    requires made { IsWellMade conj }
    requires partition { is_partition m.now e.now conj.columns (length kids.now) ≡ true }
    ensures { Checked (kids_fault kids.now (λ e c. E.refusal e env.now c) m.now e.now 0 conj node) conj (later node (kids_size kids.now)) result }
{
    see_constant(e);
    let columns = conj.columns;
    let count = conj.rows.len();
    let mut here = conj;
    let mut at = node;
    for r in 0..kids.len() {
        let row = child_row(alloc, m, e, r)?;
        let child = child_of(here, row)?;
        match check_at(alloc, child, &kids[r], env, at) {
            Err(e) => return Err(e),
            Ok((child, behind)) => {
                here = first_of(child, columns, count);
                at = behind;
            }
        }
    }
    Ok((here, at))
}

/// Whether each step and branch is an instance of its rule, all numbers stay in `i128`, and each end is accepted; else
/// the first node that fails and its rule. An accepted tree is a cover: each integer point of the conjunction, with
/// numbers for the columns of quotients, meets all rows on the path to some end, whose meaning holds there.
///
/// It copies the conjunction once, and adds to and cuts back these rows along the tree: a step or a branch costs its rule,
/// whatever the length of its path. It recurses as deep as the tree has branches on a path: the depth is the caller's to
/// bound.
pub fn check_tree<E: End>(
    alloc: Global,
    conj: &Conj,
    tree: &Tree<E>,
    env: &E::Env,
) -> Result<(), TreeFault>
    requires { IsWellMade conj.now }
    ensures exact { MatchResult result (λ _. tree_fault tree.now (λ e c. E.refusal e env.now c) conj.now 0 ≡ None) (Fails (tree_fault tree.now (λ e c. E.refusal e env.now c) conj.now 0)) }
    ensures cover { IfOk result (λ _. (p : List ℤ) → IsPoint conj.now p → IsCovered tree.now (λ e q. E.means e env.now q) conj.now p) }
    ensures holds { IfOk result (λ _. (p : List ℤ) → IsPoint conj.now p → AtSomeEnd (λ e q. E.means e env.now q) p) }
{
    let conj = conj.copy(alloc)?;
    let _checked = match check_at(alloc, conj, tree, env, 0) {
        Ok(checked) => checked,
        Err(e) => return Err(e),
    };
    Ok(())
}
