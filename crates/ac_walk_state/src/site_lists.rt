//! Sites, each once.
ghost use Rattle.std.specs.Prelude.{◌++◌, List, [], ◌∷◌, IfOk, OnOk};
ghost use Rattle.ac_syntax.specs.declared.tree.Site.{Site};
ghost use Rattle.ac_walk_state.specs.PartialOrders.{AreOnce};

use crate::partial::has_site;
use ac_base::Items;
use ac_syntax::tree::Site;
use std::alloc::{AllocError, Global};

/// Adds a site, unless it is there.
fn push_new(made: &mut Items<Site>, site: &Site) -> Result<(), AllocError>
    ensures { OnOk result ((first : List Site) → AreOnce first made.old → AreOnce (first ++ site.now ∷ []) made.new) }
{
    if has_site(made.as_slice(), site) {
        return Ok(());
    }
    made.push(*site)
}

/// The sites, each once, by their first places. The only refusal is want of memory.
pub fn distinct_sites(alloc: Global, sites: &[Site]) -> Result<Items<Site>, AllocError>
    ensures { IfOk result (AreOnce sites.now) }
{
    let mut made = Items::new(alloc);
    for site in sites {
        push_new(&mut made, site)?;
    }
    Ok(made)
}
