//! How the program ends.
ghost use Rattle.std.specs.Prelude.{◌≡◌};
ghost use Rattle.command.specs.End.{line_of, exit_status};

use filter::{RunFault, Status};

/// How the program ends.
#[derive(Clone, Copy)]
pub enum End {
    /// The filter ran, with this result.
    Ran(Result<Status, RunFault>),
    /// Help was printed.
    Helped,
    /// The command does not take the arguments.
    BadWords,
    /// The system did not open the file.
    NoFile,
    /// Memory ran out before the filter ran.
    NoMemory,
}

impl End {
    /// Returns the exit status of the process, 0 to 3.
    pub fn status(&self) -> u8
        ensures { result ≡ exit_status self.now }
    {
        match self {
            End::Ran(Ok(Status::Clean)) | End::Helped => 0,
            End::Ran(Ok(Status::Refused)) => 1,
            End::BadWords => 2,
            End::Ran(Err(_)) | End::NoFile | End::NoMemory => 3,
        }
    }

    /// Returns the line for standard error, with its line feed, or the empty text.
    pub fn line(&self) -> &'static str
        ensures { result.now ≡ line_of self.now }
    {
        match self {
            End::Ran(Ok(_)) | End::Helped => "",
            End::BadWords => "labels: bad words\n",
            End::Ran(Err(RunFault::Read)) => "labels: read failed\n",
            End::Ran(Err(_)) => "labels: write failed\n",
            End::NoFile => "labels: cannot open file\n",
            End::NoMemory => "labels: no memory\n",
        }
    }
}
