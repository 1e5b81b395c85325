ghost use Rattle.std.specs.Prelude.{◌≡◌, ◌≤◌, length, IfOk};
ghost use Rattle.ac_forms.specs.declared.conj.Conj.{Conj};
ghost use Rattle.ac_cert.specs.AcceptedTrees.{Accepts, absurd_refusals};
ghost use Rattle.ac_cert.specs.CertificateFaults.{size_of};
ghost use Rattle.ac_cert_short.specs.CertificateNodes.{IsNeeded, nodes_of};

use crate::drafting::drafted;
use crate::places::same_places;
use crate::placing::placed;
use ac_cert::{Absurd, Tree};
use std::alloc::{AllocError, Global};

/// A count of 0 for each row.
fn no_uses(alloc: Global, rows: usize) -> Result<Vec<usize>, AllocError>
    ensures { IfOk result (λ uses. length uses.items ≡ rows) }
{
    let uses = vec![in alloc; 0usize; rows]?;
    Ok(uses)
}

/// The tree, on a path with so many rows, without what it does not use: a step whose row no later step and no end behind it
/// uses is left out, and so is a branch of which a child does without its row, for that child. The rows behind are named by
/// the places that they have then. Steps that make a column are kept, with what they use.
///
/// Where the tree is accepted, so is the result; whether it is, isn't asked: a tree that names rows that are not there can be
/// trimmed too. It takes time and memory as the tree is long, and once as the path is. It recurses as deep as the tree has
/// branches on a path: the depth is the caller's to bound. The only refusal is want of memory.
pub fn trim(alloc: Global, rows: usize, tree: Tree<Absurd>) -> Result<Tree<Absurd>, AllocError>
    ensures accepted { IfOk result (λ t. (c : Conj) → length c.rows ≡ rows → Accepts tree absurd_refusals c → Accepts t absurd_refusals c) }
    ensures no_longer { IfOk result (λ t. size_of t ≤ size_of tree) }
    ensures needed { IfOk result (λ t. IsNeeded rows (nodes_of t)) }
{
    let mut uses = no_uses(alloc, rows)?;
    let draft = drafted(alloc, tree, &mut uses)?;
    let mut places = same_places(alloc, rows)?;
    let made = placed(alloc, draft, &mut places, rows)?;
    Ok(made)
}
