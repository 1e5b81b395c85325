ghost use Rattle.ac_parse.specs.TextMeaning.{HasOneProgram, HasOneSourceFault, HasNotBoth, ProgramsAreReady, ProgramsAreSmall, ProgramsDoAsTexts};

/// What the bytes of a text determine: their program, or else their first fault.
pub fn programs_are_determined()
    ensures program { HasOneProgram }
    ensures fault { HasOneSourceFault }
    ensures either { HasNotBoth }
{}

/// What each program of a text is: its loops end, its index expressions have a coefficient for each parameter and each loop
/// around them, its divisors are at least 1, and its numbers are at most 2^31 in absolute value.
pub fn programs_are_ready()
    ensures ready { ProgramsAreReady }
    ensures small { ProgramsAreSmall }
{}

/// The program of a text does what the text says: its loops, branches and assignments are those of the text, in order, each with
/// the start, the condition, the step, the cell and the value that are written there. Each name that the text uses is declared in
/// it or is that of a loop that runs there.
pub fn programs_do_as_texts()
    ensures does { ProgramsDoAsTexts }
{}
