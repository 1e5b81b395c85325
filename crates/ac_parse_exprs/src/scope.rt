ghost use Rattle.std.specs.Prelude.{◌≡◌};
ghost use Rattle.ac_parse_exprs.specs.Meanings.{declared_meaning, iterator_number, is_starting, meaning, read_rule, call_rule, is_array};

use crate::fault::Rule;
use ac_base::Items;
use ac_syntax::name::Name;

/// What a name means at a place.
#[derive(Clone, Copy, PartialEq, Eq)]
pub enum Meaning {
    /// The integer parameter with this number.
    Parameter(usize),
    /// The iterator of the running loop with this number, the outermost 0.
    Iterator(usize),
    /// The array or scalar with this number.
    Array { number: usize, dimensions: usize },
    /// A local whole number that some untyped loop runs, outside its loops.
    LoopName,
    /// The name of an untyped loop, in that loop's start.
    OwnStart,
    /// No declaration.
    Nothing,
}

/// A declared name and what it means.
#[derive(Drop)]
pub struct Entry {
    pub name: Name,
    pub meaning: Meaning,
}

/// Where an expression stands: how many integer parameters there are, the names of the loops that run, the innermost
/// first, the name of the untyped loop whose start this is, whether only parameters may stand here, and whether this is the condition
/// of the innermost loop.
#[derive(Drop)]
pub struct Scope {
    pub params: usize,
    pub iterators: Items<Name>,
    pub starting: Option<Name>,
    pub fixed: bool,
    pub tested: bool,
}

/// What the first entry with the name says.
pub fn declared_meaning(names: &[Entry], name: &Name) -> Meaning
    ensures { result ≡ declared_meaning names.now name.now }
{
    for entry in names {
        if entry.name == *name {
            return entry.meaning;
        }
    }
    Meaning::Nothing
}

/// The number of the innermost running loop with the name, the outermost 0.
pub fn iterator_number(iterators: &[Name], name: &Name) -> Option<usize>
    ensures { result ≡ iterator_number iterators.now name.now }
{
    for (k, iterator) in iterators.iter().enumerate() {
        if *iterator == *name {
            return Some(iterators.len() - 1 - k);
        }
    }
    None
}

impl Scope {
    fn is_starting(&self, name: &Name) -> bool
        ensures { result ≡ is_starting self.now.starting name.now }
    {
        match &self.starting {
            None => false,
            Some(own) => *own == *name,
        }
    }

    /// What a name means here.
    pub fn meaning(&self, names: &[Entry], name: &Name) -> Meaning
        ensures { result ≡ meaning names.now self.now name.now }
    {
        match iterator_number(self.iterators.as_slice(), name) {
            Some(k) => Meaning::Iterator(k),
            None => {
                if self.is_starting(name) {
                    Meaning::OwnStart
                } else {
                    declared_meaning(names, name)
                }
            }
        }
    }
}

impl Meaning {
    /// Whether it is an array or a scalar.
    pub fn is_array(self) -> bool
        ensures { result ≡ is_array self }
    {
        match self {
            Meaning::Array { .. } => true,
            _ => false,
        }
    }

    /// The rule that a read with so many subscripts breaks.
    pub fn read_rule(self, subs: usize) -> Option<Rule>
        ensures { result ≡ read_rule self subs }
    {
        let fits = match self {
            Meaning::Parameter(_) | Meaning::Iterator(_) => subs == 0,
            Meaning::Array { dimensions, .. } => subs == dimensions,
            Meaning::OwnStart => false,
            Meaning::LoopName | Meaning::Nothing => return Some(Rule::Undeclared),
        };
        if fits { None } else { Some(Rule::Misused) }
    }

    /// The rule that a call of the name breaks.
    pub fn call_rule(self) -> Option<Rule>
        ensures { result ≡ call_rule self }
    {
        match self {
            Meaning::Nothing => None,
            Meaning::LoopName => Some(Rule::Undeclared),
            _ => Some(Rule::Misused),
        }
    }
}
