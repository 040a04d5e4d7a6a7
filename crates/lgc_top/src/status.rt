// How a run ends.
ghost use Rattle.std.specs.Prelude.{◌≡◌};
ghost use Rattle.lgc_top.specs.Run.{number_of, goes_out};

/// How a run ended.
#[derive(Clone, Copy, Debug, PartialEq, Eq)]
pub enum Status {
    /// The command was carried out.
    Done,
    /// The command was carried out, and some query isn't satisfied by some valuation.
    Refuted,
    /// The words are no command.
    Usage,
    /// The specification has a fault.
    BadSpec,
    /// The second file has a fault.
    BadInput,
    /// The command was carried out, and some rule isn't right, or the report isn't valid.
    Rejected,
    /// A file couldn't be read.
    ReadFault,
    /// The bytes couldn't be put whole.
    WriteFault,
    /// Memory ran out, and nothing was put.
    Memory,
}

/// The number that the process ends with.
pub fn exit_number(status: &Status) -> u8
    ensures { result ≡ number_of status.now }
{
    match status {
        Status::Done => 0,
        Status::Refuted => 1,
        Status::Usage => 2,
        Status::BadSpec => 3,
        Status::BadInput => 4,
        Status::Rejected => 5,
        Status::ReadFault => 6,
        Status::WriteFault => 7,
        Status::Memory => 8,
    }
}

/// Whether the bytes are put to the output.
pub(crate) fn goes_out(status: Status) -> bool
    ensures { result ≡ goes_out status }
{
    matches!(status, Status::Done | Status::Refuted | Status::Rejected)
}
