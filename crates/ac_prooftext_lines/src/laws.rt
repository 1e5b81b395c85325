//! What holds of all lines: the function here does nothing, and its contract is a fact.
ghost use Rattle.ac_prooftext_lines.specs.UniqueItems.{SpellsOneItem, HasNoFeed};

/// No line is that of two items, and none has an LF.
pub fn lines_spell_one_item()
    ensures one { SpellsOneItem }
    ensures feed { HasNoFeed }
{}
