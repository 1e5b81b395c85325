//! Symbols of chains.
ghost use Rattle.std.specs.Prelude.{◌≡◌, nat_eq};
ghost use Rattle.std.specs.Cmp.Lexicographic.{pointwise};
ghost use Rattle.std.specs.List.{list_any};
ghost use Rattle.ac_syntax.specs.Outputs.{swaps_of};
ghost use Rattle.ac_assoc_law.specs.OperandChains.{is_binary};

use ac_syntax::name::Name;
use ac_syntax::tree::Symbol;

/// Whether a name is among those.
pub(crate) fn has_name(names: &[Name], name: &[u8]) -> bool
    ensures { result ≡ list_any (pointwise nat_eq name.now) names.now }
{
    for candidate in names {
        if *name == *candidate.as_bytes() {
            return true;
        }
    }
    false
}

/// Whether a call of the symbol is of a listed name with two arguments.
pub(crate) fn joins(names: &[Name], symbol: &Symbol) -> bool
    ensures { result ≡ swaps_of names.now symbol.now }
{
    symbol.arity == 2 && has_name(names, symbol.name.as_bytes())
}

/// Whether it is of this name with two arguments.
pub(crate) fn is_binary(name: &Name, symbol: &Symbol) -> bool
    ensures { result ≡ is_binary name.now symbol.now }
{
    symbol.arity == 2 && symbol.name == *name
}
