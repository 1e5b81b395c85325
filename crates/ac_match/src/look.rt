ghost use Rattle.std.specs.Prelude.{◌≡◌, [], ◌∷◌, length};
ghost use Rattle.ac_match.specs.MatchInternals.Search.{IsLooked, IsScanned};

use ac_base::Items;
use ac_syntax::tree::Order;

/// An order at a site, by the site's number. A number past the end is that of no site.
#[derive(Clone, Copy, Drop)]
pub(crate) struct Choice {
    pub site: usize,
    pub order: Order,
}

/// How a partial order stands to what is assigned.
#[derive(Clone, Copy, Drop)]
pub(crate) enum Look {
    /// No order with what is assigned extends it.
    Contradicted,
    /// Each order with what is assigned extends it.
    Extended,
    /// It needs a site that is not assigned.
    Open(usize),
}

/// Looks at one choice.
#[tactic(auto, using(crate::proofs::Looks::one_steps))]
fn look_at_one(choice: &Choice, assigned: &[Option<Order>]) -> Look
    ensures { IsLooked (choice.now ∷ []) assigned.now result }
{
    if choice.site >= assigned.len() {
        return Look::Contradicted;
    }
    match assigned[choice.site] {
        Some(order) => {
            if order == choice.order {
                Look::Extended
            } else {
                Look::Contradicted
            }
        }
        None => Look::Open(choice.site),
    }
}

/// Looks at a partial order.
#[tactic(auto, using(crate::proofs::Looks::look_steps))]
fn look_at(partial: &[Choice], assigned: &[Option<Order>]) -> Look
    ensures { IsLooked partial.now assigned.now result }
{
    for choice in partial {
        match look_at_one(choice, assigned) {
            Look::Extended => {}
            Look::Contradicted => return Look::Contradicted,
            Look::Open(site) => return Look::Open(site),
        }
    }
    Look::Extended
}

/// Looks at all refuted orders, up to the first that is not contradicted.
#[tactic(auto, using(crate::proofs::Looks::scan_steps))]
pub(crate) fn look_at_all(refuted: &[Items<Choice>], assigned: &[Option<Order>]) -> Look
    ensures { IsScanned refuted.now assigned.now result }
{
    for partial in refuted {
        match look_at(partial.as_slice(), assigned) {
            Look::Contradicted => {}
            Look::Extended => return Look::Extended,
            Look::Open(site) => return Look::Open(site),
        }
    }
    Look::Contradicted
}
