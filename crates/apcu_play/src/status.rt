//! How a run ends.

ghost use Rattle.std.specs.Prelude.{◌≡◌, length};
ghost use Rattle.std.specs.Process.{exit_status};
ghost use Rattle.apcu_play.specs.Message.{message_of, code_of};

use std::process::ExitCode;

/// How a run ended. Its number is the program's exit status.
#[derive(Clone, Copy, Debug, PartialEq, Eq)]
pub enum Status {
    /// All calls were made, and their results were printed; or the verdict is `yes`.
    Done,
    /// The words are not those of this program, or an option's value is out of its range.
    Usage,
    /// The input spells no scripts. The message has the first fault's place and reason.
    Script,
    /// A read of the input failed.
    ReadFault,
    /// A write of the output failed.
    WriteFault,
    /// There was not enough memory.
    NoMemory,
    /// The input is longer than 67,108,864 bytes.
    TooLong,
    /// The calls may make more than 4,194,304 events, each worker's end included.
    TooMany,
    /// An iterator's pattern is invalid, or its regex is refused.
    Pattern,
    /// The output that was judged is not one of its scripts. The verdict was printed.
    Differs,
    /// The input does not begin with a bundle, though one is asked for. The message has the first
    /// fault's place and reason.
    Bundle,
}

impl Status {
    /// The exit status, from 0 to 10.
    pub fn code(self) -> u8
        ensures { result ≡ code_of self }
    {
        match self {
            Status::Done => 0,
            Status::Usage => 1,
            Status::Script => 2,
            Status::ReadFault => 3,
            Status::WriteFault => 4,
            Status::NoMemory => 5,
            Status::TooLong => 6,
            Status::TooMany => 7,
            Status::Pattern => 8,
            Status::Differs => 9,
            Status::Bundle => 10,
        }
    }

    /// The exit code of a program whose run ended with this status: its exit status is the code.
    pub fn exit_code(self) -> ExitCode
        ensures { exit_status result ≡ code_of self }
    {
        ExitCode::from(self.code())
    }

    /// Its message on standard error, a line; empty if the run is done, and also for a script or a
    /// bundle with a fault, whose message has the place and reason.
    pub fn message(self) -> &'static [u8]
        ensures { result.now ≡ message_of self }
    {
        match self {
            Status::Done | Status::Script | Status::Bundle => b"",
            Status::Usage => b"apcu_run: usage\n",
            Status::ReadFault => b"apcu_run: read fault\n",
            Status::WriteFault => b"apcu_run: write fault\n",
            Status::NoMemory => b"apcu_run: out of memory\n",
            Status::TooLong => b"apcu_run: input too long\n",
            Status::TooMany => b"apcu_run: too many events\n",
            Status::Pattern => b"apcu_run: pattern\n",
            Status::Differs => b"apcu_run: differs\n",
        }
    }
}
