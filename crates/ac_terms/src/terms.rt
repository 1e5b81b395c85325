ghost use Rattle.std.specs.Prelude.{◌≡◌, ◌+◌, ◌<◌, ◌≤◌, ◌^◌, ◌&&◌, ◌==◌, [], length, nat_eq, slice_get, Some, IfOk, OnErr, IsTrue, ◌↔◌, if◌then◌else◌};
ghost use Rattle.std.specs.Cmp.Lexicographic.{pointwise};
ghost use Rattle.std.specs.List.{list_any};
ghost use Rattle.ac_syntax.specs.Outputs.{swaps_of};
ghost use Rattle.ac_syntax.specs.Term.{Term, Terms as TermList, Agree, Num, Initial as InitialTerm, Apply};
ghost use Rattle.ac_terms.specs.Table.{StandsFor, StandForAll, Keeps, in_order};
ghost use Rattle.ac_terms.specs.TableNodes.{shape, leaf_at, KeepsPlaces};
ghost use Rattle.ac_terms.specs.IdAgreement.{IdsDecideAgreement};

use crate::node::{Leaf, Node, TermId};
use ac_syntax::name::Name;
use ac_syntax::tree::Symbol;
use indexmap::IndexSet;
use std::alloc::{AllocError, Global};
use std::marker::Model;

/// A table of terms, each held once up to agreement.
///
/// Contracts see it as the declared names and what each place has: a number, the initial contents of a cell, or a symbol
/// with the ids of its arguments. It holds fewer than 2^32 terms; a call that would add one to a full table answers want
/// of memory.
#[derive(Drop)]
pub struct Terms {
    alloc: Global,
    commutative: Vec<Name>,
    nodes: IndexSet<Node>,
}

impl Model for Terms {
    ghost use Rattle.std.specs.Prelude.{map};
    ghost use Rattle.ac_terms.specs.Table.{Table};
    ghost use Rattle.ac_terms.specs.TableNodes.{shape, AreApart};

    ghost Value = { Table };

    ghost view = { λ table. record { commutative = table.commutative.items; places = map shape table.nodes.keys } };

    ghost invariant = { λ table. AreApart (map shape table.nodes.keys) };
}

/// Whether a name is among those.
fn has_name(names: &[Name], name: &[u8]) -> bool
    ensures { result ≡ list_any (pointwise nat_eq name.now) names.now }
{
    for candidate in names {
        if *name == *candidate.as_bytes() {
            return true;
        }
    }
    false
}

/// Whether the two arguments of a symbol may be swapped.
fn may_swap(names: &[Name], symbol: &Symbol) -> bool
    ensures { result ≡ swaps_of names.now symbol.now }
{
    symbol.arity == 2 && has_name(names, symbol.name.as_bytes())
}

/// The arguments as they are kept.
fn arranged(alloc: Global, swapped: bool, args: &[TermId]) -> Result<Vec<TermId>, AllocError>
    ensures { IfOk result (λ ids. ids.items ≡ (if swapped then in_order args.now else args.now)) }
{
    match args {
        [a, b] if swapped && b.index < a.index => Vec::from_slice(alloc, &[*b, *a]),
        _ => Vec::from_slice(alloc, args),
    }
}

impl Terms {
    /// An empty table with these declared names. A symbol is commutative where its name is among them and it takes two
    /// arguments.
    pub fn new(alloc: Global, commutative: Vec<Name>) -> Terms
        ensures names { result.commutative ≡ commutative.items }
        ensures empty { result.places ≡ [] }
    {
        Terms {
            alloc,
            commutative,
            nodes: IndexSet::new(alloc),
        }
    }

    /// The place of a node, which it is given if it has none.
    fn store(&mut self, node: Node) -> Result<TermId, AllocError>
        ensures stored { IfOk result (λ id. slice_get self.new.places id.index ≡ Some (shape node)) }
        ensures kept { KeepsPlaces self.old.places self.new.places }
        ensures names { self.new.commutative ≡ self.old.commutative }
        ensures refused { OnErr result (self.new ≡ self.old) }
    {
        if self.nodes.len() >= u32::MAX as usize {
            return Err(AllocError);
        }
        let (index, _) = self.nodes.insert_full(node)?;
        Ok(TermId {
            index: index as u32,
        })
    }

    /// The id of the number `v`. After want of memory the table is as before.
    pub fn number(&mut self, v: i128) -> Result<TermId, AllocError>
        ensures term { IfOk result (λ id. StandsFor self.new (Num v) id) }
        ensures kept { Keeps self.old self.new }
        ensures names { self.new.commutative ≡ self.old.commutative }
        ensures refused { OnErr result (self.new ≡ self.old) }
    {
        self.store(Node::Number(v))
    }

    /// The id of the initial contents of the cell at `cell` of the leaf's array. After want of memory the table is as
    /// before.
    pub fn initial(&mut self, leaf: Leaf, cell: &[i64]) -> Result<TermId, AllocError>
        ensures term { IfOk result (λ id. StandsFor self.new (InitialTerm (leaf_at leaf cell.now)) id) }
        ensures kept { Keeps self.old self.new }
        ensures names { self.new.commutative ≡ self.old.commutative }
        ensures refused { OnErr result (self.new ≡ self.old) }
    {
        let at = Vec::from_slice(self.alloc, cell)?;
        self.store(Node::Initial { leaf, at })
    }

    /// The id of a symbol's call on the terms that `args` stand for, in this order. After want of memory the table is as
    /// before.
    pub fn call(&mut self, symbol: &Symbol, args: &[TermId]) -> Result<TermId, AllocError>
        ensures term { (ts : TermList) → StandForAll self.old ts args.now → IfOk result (λ id. StandsFor self.new (Apply symbol.now ts) id) }
        ensures kept { Keeps self.old self.new }
        ensures names { self.new.commutative ≡ self.old.commutative }
        ensures refused { OnErr result (self.new ≡ self.old) }
    {
        let swapped = may_swap(&self.commutative, symbol);
        let args = arranged(self.alloc, swapped, args)?;
        let name = Vec::from_slice(self.alloc, symbol.name.as_bytes())?;
        self.store(Node::Call {
            name,
            arity: symbol.arity,
            args,
        })
    }

    /// Whether the terms of two ids of this table agree. It takes no memory.
    pub fn same(&self, a: TermId, b: TermId) -> bool
        ensures ids { IsTrue result ↔ (a ≡ b) }
        ensures agree { (t u : Term) → StandsFor self.now t a → StandsFor self.now u b → (IsTrue result ↔ Agree (swaps_of self.now.commutative) t u) }
    {
        let _ = &self.nodes;
        a == b
    }

    /// A law of every table: ids are equal exactly where their terms agree, in whatever order these were built.
    pub fn ids_decide_agreement(&self)
        ensures { IdsDecideAgreement self.now }
    {
        let _ = &self.nodes;
    }
}
