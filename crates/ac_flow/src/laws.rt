//! What the rows of writings say, in words: each function here does nothing, and its contract is a fact about all programs.
ghost use Rattle.ac_flow.specs.KillReplay.{KillsAreReplayed};
ghost use Rattle.ac_flow.specs.Sources.{NoCopyIsTheSource, TheSourceHasRows};

/// Where the rows of a writing hold, its instance is the source of the read or output exactly where no copy of the cell has a
/// point: no writing that stands before the reader and after that instance. Without an assumed source, no writing before the
/// reader has a point exactly where the value is the initial one.
pub fn no_copy_between()
    ensures { NoCopyIsTheSource }
{}

/// The source of a read or an output is among the writings before it, and meets their rows.
pub fn the_source_has_rows()
    ensures { TheSourceHasRows }
{}

/// The kills of a case are replayed word for word: the copy that a kill names is there, its choices are legal one after the
/// other and name the copy's columns alone, and they leave the rows of the kill's conjunction.
pub fn kills_are_replayed()
    ensures { KillsAreReplayed }
{}
