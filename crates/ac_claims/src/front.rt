//! The claims and outputs of a proof, as far as they are known.
ghost use Rattle.std.specs.Prelude.{◌≡◌, [], ◌∷◌, ◌++◌, OnOk, OnErr};
ghost use Rattle.ac_claims.specs.ProofMachine.{with_last};

use crate::types::Claim;
use crate::upcoming::Upcoming;
use ac_base::Items;
use ac_forms::Row;
use ac_syntax::tree::Position;
use std::alloc::{AllocError, Global};

/// The claims, the columns of the last one, the outputs that were named, and the next plan.
#[derive(Drop)]
pub(crate) struct Front {
    pub claims: Items<Claim>,
    pub columns: usize,
    pub named: Items<usize>,
    pub next: Upcoming,
}

/// The first plan.
fn first() -> Upcoming
    ensures { result ≡ record { claim = 0; left_piece = 0; right_piece = 0 } }
{
    Upcoming {
        claim: 0,
        left_piece: 0,
        right_piece: 0,
    }
}

/// The last claim with a further row.
#[tactic(auto, using(crate::proofs::FrontSteps::last_steps))]
fn push_row(alloc: Global, claims: &mut Items<Claim>, row: &Row) -> Result<(), AllocError>
    ensures { OnOk result (claims.new ≡ with_last claims.old row.now) }
{
    let copy = row.copy(alloc)?;
    let Some(claim) = claims.pop() else {
        return Ok(());
    };
    let Claim {
        left,
        right,
        mut rows,
    } = claim;
    rows.push(copy)?;
    claims.push(Claim { left, right, rows })?;
    Ok(())
}

impl Front {
    /// Nothing is known.
    pub fn new(alloc: Global) -> Front
        ensures { result ≡ record { claims = []; columns = 0; named = []; next = record { claim = 0; left_piece = 0; right_piece = 0 } } }
    {
        Front {
            claims: Items::new(alloc),
            columns: 0,
            named: Items::new(alloc),
            next: first(),
        }
    }

    /// A further claim, without rows so far, over so many columns.
    pub fn open_claim(
        &mut self,
        alloc: Global,
        left: Position,
        right: Position,
        columns: usize,
    ) -> Result<(), AllocError>
        ensures ok { OnOk result (self.new ≡ record { claims = self.old.claims ++ record { left = left; right = right; rows = [] } ∷ []; columns = columns; named = self.old.named; next = record { claim = 0; left_piece = 0; right_piece = 0 } }) }
        ensures err { OnErr result (self.new ≡ self.old) }
    {
        let claim = Claim {
            left,
            right,
            rows: Items::new(alloc),
        };
        self.claims.push(claim)?;
        self.columns = columns;
        self.next = first();
        Ok(())
    }

    /// A further row of the last claim. After want of memory no claim is known.
    pub fn add_row(&mut self, alloc: Global, row: &Row) -> Result<(), AllocError>
        ensures ok { OnOk result (self.new ≡ record { claims = with_last self.old.claims row.now; columns = self.old.columns; named = self.old.named; next = record { claim = 0; left_piece = 0; right_piece = 0 } }) }
        ensures err { OnErr result (self.new.claims ≡ []) }
    {
        match push_row(alloc, &mut self.claims, row) {
            Ok(()) => {
                self.next = first();
                Ok(())
            }
            Err(want) => {
                self.claims = Items::new(alloc);
                Err(want)
            }
        }
    }

    /// A further output.
    pub fn name(&mut self, array: usize) -> Result<(), AllocError>
        ensures ok { OnOk result (self.new ≡ record { claims = self.old.claims; columns = self.old.columns; named = self.old.named ++ array ∷ []; next = self.old.next }) }
        ensures err { OnErr result (self.new ≡ self.old) }
    {
        self.named.push(array)
    }
}
