//! Symbols: whether two are one, and whether the arguments of one may be swapped.
ghost use Rattle.std.specs.Prelude.{◌≡◌, nat_eq};
ghost use Rattle.std.specs.Cmp.Lexicographic.{pointwise};
ghost use Rattle.std.specs.List.{list_any};
ghost use Rattle.ac_syntax.specs.Outputs.{swaps_of};
ghost use Rattle.ac_claims_paths.specs.PathSteps.{same_symbol};

use ac_syntax::name::Name;
use ac_syntax::tree::Symbol;

/// Whether two symbols are one.
pub fn same_symbol(first: &Symbol, second: &Symbol) -> bool
    ensures { result ≡ same_symbol first.now second.now }
{
    first.arity == second.arity && first.name == second.name
}

/// Whether a name is among those.
fn has_name(names: &[Name], name: &[u8]) -> bool
    ensures { result ≡ list_any (pointwise nat_eq name.now) names.now }
{
    for candidate in names {
        if *name == *candidate.as_bytes() {
            return true;
        }
    }
    false
}

/// Whether the two arguments of a symbol may be swapped.
pub fn may_swap(names: &[Name], symbol: &Symbol) -> bool
    ensures { result ≡ swaps_of names.now symbol.now }
{
    symbol.arity == 2 && has_name(names, symbol.name.as_bytes())
}
