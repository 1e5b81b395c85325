ghost use Rattle.std.specs.Prelude.{◌≡◌};
ghost use Rattle.ac_top.specs.Codes.{code_of};
ghost use Rattle.std.specs.List.{list_any};
ghost use Rattle.ac_top.specs.Statuses.{is_different, is_unknown, status_of};

use ac_report::Verdict;

/// How a run ended.
#[derive(Clone, Copy, PartialEq, Eq)]
pub enum Status {
    /// All outputs are equal.
    Done,
    /// Some output is different.
    Different,
    /// No output is different, and of some it is not known.
    Unknown,
    /// The words have none of the listed forms.
    Usage,
    /// A source, the pair or the valuation is refused.
    Refused,
    /// A read failed.
    ReadFault,
    /// A write or a put failed.
    WriteFault,
    /// Memory ran out.
    Memory,
    /// A run of the programs was halted.
    Halted,
    /// The dataflow was stopped early.
    Stopped,
}

impl Status {
    /// The exit code of the program.
    pub fn code(&self) -> u8
        ensures { result ≡ code_of self.now }
    {
        match self {
            Status::Done => 0,
            Status::Different => 10,
            Status::Unknown => 20,
            Status::Usage => 2,
            Status::Refused => 3,
            Status::ReadFault => 4,
            Status::WriteFault => 5,
            Status::Memory => 6,
            Status::Halted => 7,
            Status::Stopped => 8,
        }
    }
}

/// The status of several verdicts: different where one is, else unknown where one is, else done.
pub fn status_of(verdicts: &[Verdict]) -> Status
    ensures { result ≡ status_of verdicts.now }
{
    if any_different(verdicts) {
        Status::Different
    } else if any_unknown(verdicts) {
        Status::Unknown
    } else {
        Status::Done
    }
}

fn any_different(verdicts: &[Verdict]) -> bool
    ensures { result ≡ list_any is_different verdicts.now }
{
    for verdict in verdicts {
        if is_different(verdict) {
            return true;
        }
    }
    false
}

fn any_unknown(verdicts: &[Verdict]) -> bool
    ensures { result ≡ list_any is_unknown verdicts.now }
{
    for verdict in verdicts {
        if is_unknown(verdict) {
            return true;
        }
    }
    false
}

fn is_different(verdict: &Verdict) -> bool
    ensures { result ≡ is_different verdict.now }
{
    match verdict {
        Verdict::Different { .. } => true,
        Verdict::Equal | Verdict::Unknown(_) => false,
    }
}

fn is_unknown(verdict: &Verdict) -> bool
    ensures { result ≡ is_unknown verdict.now }
{
    match verdict {
        Verdict::Unknown(_) => true,
        Verdict::Equal | Verdict::Different { .. } => false,
    }
}
