//! The lines of statements.
ghost use Rattle.std.specs.Prelude.{◌≡◌, ◌++◌, ◌∷◌, [], codes, map, slice_get, OnOk, IfOk};
ghost use Rattle.std.specs.List.{flat_map, join_by};
ghost use Rattle.ac_syntax.specs.Text as text;
ghost use Rattle.ac_syntax.specs.PrinterTerms.{else_lines, loop_lines};

use crate::name::Name;
use crate::print::forms::{Scope, push_cond, push_form};
use crate::print::values::{push_cell, push_value};
use crate::tree::{Cond, IndexExpr, Stmt, Value};
use ac_base::Items;
use itoa::Buffer;
use std::alloc::{AllocError, Global};

/// Adds a line.
pub fn push_line(bytes: &mut Vec<u8>, indent: &[u8], words: &[u8]) -> Result<(), AllocError>
    ensures { OnOk result (bytes.new.items ≡ bytes.old.items ++ text.line indent.now words.now) }
{
    bytes.extend_from_slice(indent)?;
    bytes.extend_from_slice(words)?;
    bytes.push(b'\n')?;
    Ok(())
}

/// Two spaces more.
fn deeper(alloc: Global, indent: &[u8]) -> Result<Vec<u8>, AllocError>
    ensures { IfOk result (λ bytes. bytes.items ≡ text.deeper indent.now) }
{
    let mut bytes = Vec::from_slice(alloc, indent)?;
    bytes.extend_from_slice(b"  ")?;
    Ok(bytes)
}

/// The names of the iterators inside a further loop.
fn inside(alloc: Global, iters: &[Name], iter: &Name) -> Result<Items<Name>, AllocError>
    ensures { IfOk result (λ names. names ≡ iters.now ++ iter.now ∷ []) }
{
    let mut names = Items::new(alloc);
    for name in iters {
        names.push(name.copy(alloc)?)?;
    }
    names.push(iter.copy(alloc)?)?;
    Ok(names)
}

fn push_step(bytes: &mut Vec<u8>, iter: &[u8], step: i64) -> Result<(), AllocError>
    ensures { OnOk result (bytes.new.items ≡ bytes.old.items ++ iter.now ++ text.step_text step) }
{
    bytes.extend_from_slice(iter)?;
    bytes.extend_from_slice(if step < 0 { b" -= " } else { b" += " })?;
    let mut buffer = Buffer::new();
    bytes.extend_from_slice(buffer.format(step.unsigned_abs()).as_bytes())
}

fn push_start(
    bytes: &mut Vec<u8>,
    scope: &Scope<'_>,
    indent: &[u8],
    iter: &[u8],
    start: &IndexExpr,
) -> Result<(), AllocError>
    ensures { OnOk result (bytes.new.items ≡ bytes.old.items ++ indent.now ++ codes "for (int " ++ iter.now ++ codes " = " ++ text.form_text scope.now start.now ++ codes "; ") }
{
    bytes.extend_from_slice(indent)?;
    bytes.extend_from_slice(b"for (int ")?;
    bytes.extend_from_slice(iter)?;
    bytes.extend_from_slice(b" = ")?;
    push_form(bytes, scope, start)?;
    bytes.extend_from_slice(b"; ")?;
    Ok(())
}

fn push_turn(
    bytes: &mut Vec<u8>,
    inner: &Scope<'_>,
    iter: &[u8],
    cond: &Cond,
    step: i64,
) -> Result<(), AllocError>
    ensures { OnOk result (bytes.new.items ≡ bytes.old.items ++ text.cond_text inner.now cond.now ++ codes "; " ++ iter.now ++ text.step_text step ++ codes ") {\n") }
{
    push_cond(bytes, inner, cond)?;
    bytes.extend_from_slice(b"; ")?;
    push_step(bytes, iter, step)?;
    bytes.extend_from_slice(b") {\n")?;
    Ok(())
}

/// A loop but for its body.
#[derive(Drop)]
struct Head<'a> {
    iter: &'a Name,
    start: &'a IndexExpr,
    cond: &'a Cond,
    step: i64,
}

/// Adds the head of a loop, where `inner` are the names in scope inside it.
fn push_loop(
    bytes: &mut Vec<u8>,
    scope: &Scope<'_>,
    inner: &Scope<'_>,
    indent: &[u8],
    head: &Head<'_>,
) -> Result<(), AllocError>
    requires { inner.now ≡ text.inside scope.now head.now.iter.now }
    ensures { OnOk result (bytes.new.items ≡ bytes.old.items ++ text.line indent.now (text.loop_text scope.now head.now.iter.now head.now.start.now head.now.cond.now head.now.step)) }
{
    let iter = head.iter.as_bytes();
    push_start(bytes, scope, indent, iter, head.start)?;
    push_turn(bytes, inner, iter, head.cond, head.step)?;
    Ok(())
}

#[tactic(auto, using(crate::proofs::Sums::joins))]
fn push_branch(
    bytes: &mut Vec<u8>,
    scope: &Scope<'_>,
    indent: &[u8],
    cond: &Cond,
) -> Result<(), AllocError>
    ensures { OnOk result (bytes.new.items ≡ bytes.old.items ++ text.line indent.now (text.branch_text scope.now cond.now)) }
{
    bytes.extend_from_slice(indent)?;
    bytes.extend_from_slice(b"if (")?;
    push_cond(bytes, scope, cond)?;
    bytes.extend_from_slice(b") {\n")
}

#[tactic(auto, using(crate::proofs::Sums::joins))]
fn push_assignment(
    bytes: &mut Vec<u8>,
    scope: &Scope<'_>,
    indent: &[u8],
    array: usize,
    subs: &[IndexExpr],
    value: &Value,
) -> Result<(), AllocError>
    ensures { OnOk result (bytes.new.items ≡ bytes.old.items ++ text.line indent.now (text.assignment_text scope.now array subs.now value.now)) }
{
    bytes.extend_from_slice(indent)?;
    push_cell(bytes, scope, array, subs)?;
    bytes.extend_from_slice(b" = ")?;
    push_value(bytes, scope, value)?;
    bytes.extend_from_slice(b";\n")
}

/// Adds the lines of a loop.
#[cycle(statement)]
#[tactic(auto, using(crate::proofs::Sums::joins))]
fn push_loop_lines(
    alloc: Global,
    bytes: &mut Vec<u8>,
    scope: &Scope<'_>,
    indent: &[u8],
    head: &Head<'_>,
    body: &[Stmt],
) -> Result<(), AllocError>
    ensures { OnOk result (bytes.new.items ≡ bytes.old.items ++ loop_lines scope.now indent.now head.now.iter.now head.now.start.now head.now.cond.now head.now.step body.now) }
{
    let further = deeper(alloc, indent)?;
    let iters = inside(alloc, scope.iters, head.iter)?;
    let inner = Scope {
        params: scope.params,
        iters: iters.as_slice(),
        arrays: scope.arrays,
    };
    push_loop(bytes, scope, &inner, indent, head)?;
    push_body(alloc, bytes, &inner, further.as_slice(), body)?;
    push_line(bytes, indent, b"}")?;
    Ok(())
}

/// Adds the lines of a statement.
#[cycle(statement)]
#[tactic(auto, using(crate::proofs::Sums::joins, crate::proofs::PrintedLines::stmt_texts_are))]
fn push_stmt(
    alloc: Global,
    bytes: &mut Vec<u8>,
    scope: &Scope<'_>,
    indent: &[u8],
    stmt: &Stmt,
) -> Result<(), AllocError>
    ensures { OnOk result (bytes.new.items ≡ bytes.old.items ++ text.stmt_text scope.now indent.now stmt.now) }
{
    match stmt {
        Stmt::For {
            iter,
            start,
            cond,
            step,
            body,
            ..
        } => {
            let head = Head {
                iter,
                start,
                cond,
                step: *step,
            };
            push_loop_lines(alloc, bytes, scope, indent, &head, body.as_slice())
        }
        Stmt::If {
            cond,
            taken,
            other,
            ..
        } => {
            let further = deeper(alloc, indent)?;
            push_branch(bytes, scope, indent, cond)?;
            push_body(alloc, bytes, scope, further.as_slice(), taken.as_slice())?;
            push_else(alloc, bytes, scope, indent, other.as_slice())?;
            push_line(bytes, indent, b"}")?;
            Ok(())
        }
        Stmt::Assign {
            array,
            subs,
            value,
            ..
        } => push_assignment(bytes, scope, indent, *array, subs.as_slice(), value),
    }
}

/// Adds an else, unless it has no statements.
#[cycle(statement)]
fn push_else(
    alloc: Global,
    bytes: &mut Vec<u8>,
    scope: &Scope<'_>,
    indent: &[u8],
    other: &[Stmt],
) -> Result<(), AllocError>
    ensures { OnOk result (bytes.new.items ≡ bytes.old.items ++ else_lines scope.now indent.now other.now) }
{
    if other.is_empty() {
        return Ok(());
    }
    push_line(bytes, indent, b"} else {")?;
    let further = deeper(alloc, indent)?;
    push_body(alloc, bytes, scope, further.as_slice(), other)
}

/// Adds the lines of all statements.
#[cycle(statement)]
pub fn push_body(
    alloc: Global,
    bytes: &mut Vec<u8>,
    scope: &Scope<'_>,
    indent: &[u8],
    body: &[Stmt],
) -> Result<(), AllocError>
    ensures { OnOk result (bytes.new.items ≡ bytes.old.items ++ flat_map (text.stmt_text scope.now indent.now) body.now) }
{
    for stmt in body {
        push_stmt(alloc, bytes, scope, indent, stmt)?;
    }
    Ok(())
}
