//! How the program ends.

ghost use Rattle.std.specs.Prelude.{◌≡◌};
ghost use Rattle.call_words.specs.Statuses.{status_number};

use knx_model::NoMemory;

/// The status of a call, each with the number that is the program's exit status.
#[derive(Clone, Copy, Debug, Drop, PartialEq, Eq)]
pub enum Status {
    /// 0: the defined end.
    Done,
    /// 1: some job failed.
    SomeFailed,
    /// 2: the words aren't a command's.
    Usage,
    /// 3: a project is refused.
    Project,
    /// 4: the catalogue is refused.
    Catalogue,
    /// 5: the script is refused.
    Script,
    /// 6: a file couldn't be read.
    Read,
    /// 7: the output couldn't be written.
    Write,
    /// 8: there was no memory.
    NoMemory(NoMemory),
    /// 9: a link failed.
    Link,
    /// 10: the gateway refused three connects in turn.
    GatewayRefused,
    /// 11: too many datagrams came.
    Flooded,
    /// 12: a job's device isn't on the tunnel's line.
    WrongLine,
    /// 13: the turns were used up before the end.
    OpenTurns,
    /// 14: no gateway was found.
    NothingFound,
    /// 15: no unit is in programming mode.
    NoUnit,
    /// 16: several units are.
    Several,
    /// 17: a unit has the wanted address.
    Taken,
    /// 18: it isn't known whether the unit took the address.
    Unconfirmed,
    /// 19: the channel was lost.
    TunnelLost,
}

impl Status {
    /// Its number, 0 to 19.
    pub fn number(self) -> u8
        ensures { result ≡ status_number self }
    {
        match self {
            Status::Done => 0,
            Status::SomeFailed => 1,
            Status::Usage => 2,
            Status::Project => 3,
            Status::Catalogue => 4,
            Status::Script => 5,
            Status::Read => 6,
            Status::Write => 7,
            Status::NoMemory(_) => 8,
            Status::Link => 9,
            Status::GatewayRefused => 10,
            Status::Flooded => 11,
            Status::WrongLine => 12,
            Status::OpenTurns => 13,
            Status::NothingFound => 14,
            Status::NoUnit => 15,
            Status::Several => 16,
            Status::Taken => 17,
            Status::Unconfirmed => 18,
            Status::TunnelLost => 19,
        }
    }
}
