//! The program: from its words and the files that they name to a status and a text.
//!
//! `run` is the top call. It reads the files through whatever `Files` it is given and puts its text through whatever
//! `Sink`, so that its contract speaks of the bytes read and the bytes put. What it may answer stands in one relation,
//! `specs/ProgramAnswers.antt`, case by case, with the lines in `specs/ConsoleLines.antt`; and the headline is a clause of it: if
//! the status is done, each output of the two programs is the same.
//!
//! A text without a program is refused by a line that says what is wrong and where, by line and column; of two such texts the first
//! is told. What stands before the pair of two texts is `sources::pair_sources`. Both programs of a pair are then lowered to integer
//! points, and the first that is not is refused in the same way (`lowering`).
//!
//! `prove` compares the outputs of a pair at all valuations of its context, by the search of `ac_walk` (`prove`), and writes the file for the
//! proof of what is equal before the text is put (`program`). `check` tests such a file, `instance` runs both programs of a pair at one
//! valuation, `flow` tells the sources of the reads of one file, and `gen` proves and runs a pair that it makes itself (`generated`).
//! `legal` tells whether an order of the assignments of one file keeps what conflicts (`legality`).
//!
//! `aprove` compares the outputs of a pair in which some operators are taken as associative and commutative (`aprove`): each chain of
//! such an operator is one call, and one order of its operands after another is tried (`arrangements`).
//!
//! The words of the command line are read by the library clap (`ac_cli_args`).
#![tactic(auto)]

pub mod apart_laws;
mod aprove;
mod arrangements;
mod check;
mod findings;
mod flows;
mod generated;
mod halts;
mod legality;
mod lowering;
mod places;
mod program;
mod proof_lines;
mod prove;
mod refusals;
mod regrouped;
mod report;
mod runs;
mod sources;
pub mod status;
mod stopping;
mod texts;
mod valuations;

pub use ac_report::Verdict;
pub use program::run;
pub use status::{Status, status_of};
