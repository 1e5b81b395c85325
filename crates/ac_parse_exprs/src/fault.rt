ghost use Rattle.std.specs.Prelude.{◌≡◌};
ghost use Rattle.ac_parse_exprs.specs.FaultOrder.{number_of_limit, rank, is_earlier, earlier, broken_where, rule_broken};

use ac_syntax::tree::Place;
use std::fmt;

/// The limit that a source text exceeds.
#[derive(Clone, Copy, Debug, PartialEq, Eq)]
pub enum Which {
    File,
    Nesting,
    Parameters,
    Arrays,
    Dimensions,
    Depth,
    Assignments,
    Nodes,
    Literal,
    Coefficient,
    Pieces,
    Quotients,
}

impl fmt::Display for Which {
    fn fmt<W: fmt::Write>(&self, f: &mut fmt::Formatter<W>) -> fmt::Result {
        let name = match self {
            Which::File => "file",
            Which::Nesting => "nesting",
            Which::Parameters => "parameters",
            Which::Arrays => "arrays",
            Which::Dimensions => "dimensions",
            Which::Depth => "depth",
            Which::Assignments => "assignments",
            Which::Nodes => "nodes",
            Which::Literal => "literal",
            Which::Coefficient => "coefficient",
            Which::Pieces => "pieces",
            Which::Quotients => "quotients",
        };
        write!(f, "{name}")
    }
}

/// The rule that is broken.
#[derive(Clone, Copy, PartialEq, Eq)]
pub enum Rule {
    NotAffine,
    Undeclared,
    Misused,
    Duplicate,
    Endless,
    Limit(Which),
}

/// A broken rule, and where.
#[derive(Clone, Copy, PartialEq, Eq)]
pub struct Broken {
    pub rule: Rule,
    pub place: Place,
}

fn number_of_limit(which: Which) -> u8
    ensures { result ≡ number_of_limit which }
{
    match which {
        Which::File => 0,
        Which::Nesting => 1,
        Which::Parameters => 2,
        Which::Arrays => 3,
        Which::Dimensions => 4,
        Which::Depth => 5,
        Which::Assignments => 6,
        Which::Nodes => 7,
        Which::Literal => 8,
        Which::Coefficient => 9,
        Which::Pieces => 10,
        Which::Quotients => 11,
    }
}

impl Rule {
    fn rank(self) -> u8
        ensures { result ≡ rank self }
    {
        match self {
            Rule::NotAffine => 0,
            Rule::Undeclared => 1,
            Rule::Misused => 2,
            Rule::Duplicate => 3,
            Rule::Endless => 4,
            Rule::Limit(which) => 5 + number_of_limit(which),
        }
    }
}

impl Broken {
    fn is_earlier(self, other: Broken) -> bool
        ensures { result ≡ is_earlier self other }
    {
        if self.place.at == other.place.at {
            self.rule.rank() < other.rule.rank()
        } else {
            self.place.at < other.place.at
        }
    }
}

/// The earlier of two faults that may be there.
pub fn earlier(one: Option<Broken>, other: Option<Broken>) -> Option<Broken>
    ensures { result ≡ earlier one other }
{
    match one {
        None => other,
        Some(broken) => match other {
            None => Some(broken),
            Some(second) => {
                if second.is_earlier(broken) {
                    Some(second)
                } else {
                    Some(broken)
                }
            }
        },
    }
}

/// The rule at the place, where the test says that it is broken.
pub fn broken_where(test: bool, rule: Rule, place: Place) -> Option<Broken>
    ensures { result ≡ broken_where test rule place }
{
    if test {
        Some(Broken { rule, place })
    } else {
        None
    }
}

/// The rule at the place, where there is one.
pub fn rule_broken(rule: Option<Rule>, place: Place) -> Option<Broken>
    ensures { result ≡ rule_broken rule place }
{
    match rule {
        None => None,
        Some(rule) => Some(Broken { rule, place }),
    }
}
