ghost use Rattle.std.specs.Prelude.{◌≡◌};
ghost use Rattle.ac_cert.specs.RuleNames.{name_of};

use crate::types::Rule;
use std::fmt;

impl Rule {
    /// The rule's name: its variant's, in lower case.
    pub fn name(&self) -> &'static str
        ensures { result.now ≡ name_of self.now }
    {
        match self {
            Rule::Text => "text",
            Rule::Point => "point",
            Rule::Coords => "coords",
            Rule::Claim => "claim",
            Rule::Output => "output",
            Rule::Tree => "tree",
            Rule::Add => "add",
            Rule::Cut => "cut",
            Rule::DivScale => "divscale",
            Rule::DivAdd => "divadd",
            Rule::DivMod => "divmod",
            Rule::DivEq => "diveq",
            Rule::Quot => "quot",
            Rule::Floor => "floor",
            Rule::EqCut => "eqcut",
            Rule::Split => "split",
            Rule::Residue => "residue",
            Rule::Go => "go",
            Rule::Absurd => "absurd",
            Rule::Hit => "hit",
            Rule::Number => "number",
            Rule::Initial => "initial",
            Rule::Killed => "killed",
            Rule::End => "end",
        }
    }
}

impl fmt::Display for Rule {
    ghost use Rattle.std.specs.Prelude.{Some};

    ghost output = { λ rule. Some (name_of rule) };

    fn fmt<W: fmt::Write>(&self, f: &mut fmt::Formatter<W>) -> fmt::Result {
        f.write_str(self.name())
    }
}
