ghost use Rattle.ac_cli_args.specs.UniqueCommands.{HasOneCommand, HasOneValuation, CommandsAreInRange};

/// What words determine: the command that they spell, and the values that a word gives the parameters.
pub fn words_are_determined()
    ensures command { HasOneCommand }
    ensures valuation { HasOneValuation }
{}

/// The numbers of a command are in their ranges, also where none is given, and its symbols have as many bytes as a name may have.
pub fn numbers_are_in_range()
    ensures { CommandsAreInRange }
{}
