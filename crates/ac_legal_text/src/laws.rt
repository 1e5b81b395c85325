ghost use Rattle.ac_legal_text.specs.OneAnswer.{FaultsSpellNothing};

/// A text with a fault spells no schedule. So `read_order` answers the schedule if and only if the text spells one, unless memory is
/// wanting.
pub fn faults_spell_nothing()
    ensures { FaultsSpellNothing }
{}
