//! Chains of operands and operators.

ghost use Rattle.std.specs.Prelude.{◌≡◌, IfOk, OnOk};
ghost use Rattle.ac_parse_grammar.specs.Chains.{start, link, chain};

use crate::tree::{Expr, Operator};
use ac_base::Items;
use std::alloc::{AllocError, Global};

/// The operands and operators of a chain, as far as it is read.
#[derive(Drop)]
pub struct Links {
    pub operands: Items<Expr>,
    pub operators: Items<Operator>,
}

impl Links {
    pub fn new(alloc: Global, first: Expr) -> Result<Links, AllocError>
        ensures { IfOk result (λ links. links ≡ start first) }
    {
        let mut operands = Items::new(alloc);
        operands.push(first)?;
        Ok(Links {
            operands,
            operators: Items::new(alloc),
        })
    }

    pub fn add(&mut self, operator: Operator, operand: Expr) -> Result<(), AllocError>
        ensures { OnOk result (self.new ≡ link self.old operator operand) }
    {
        self.operands.push(operand)?;
        self.operators.push(operator)?;
        Ok(())
    }

    /// The expression; one operand alone is the operand itself.
    #[tactic(auto, using(crate::proofs::Chains::only_operand, crate::proofs::Chains::more_operands))]
    pub fn into_expr(self) -> Expr
        ensures { result ≡ chain self }
    {
        let Links {
            mut operands,
            operators,
        } = self;
        if operands.len() == 1 {
            if let Some(operand) = operands.pop() {
                return operand;
            }
        }
        Expr::Chain {
            operands,
            operators,
        }
    }
}
