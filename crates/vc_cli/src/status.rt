//! How a run ends, as the program's exit status.

ghost use Rattle.std.specs.Prelude.{◌≡◌};
ghost use Rattle.vc_cli.specs.Delivery.{status_of};

use vc_session::Reply;

/// How a run ended; the number is the program's exit status.
#[derive(Clone, Copy, Debug, PartialEq, Eq)]
pub enum Status {
    /// The answer was written.
    Done = 0,
    /// The answer was written, and it is no.
    No = 1,
    /// The words are no command line.
    Usage = 2,
    /// The input was refused, and the refusal was written.
    Input = 3,
    /// A limit was exceeded, and the refusal was written.
    Limit = 4,
    /// The source failed.
    ReadFault = 5,
    /// The sink failed: at most a prefix of the reply was written.
    WriteFault = 6,
    /// The key device failed.
    DeviceFault = 7,
    /// Out of memory.
    Memory = 8,
}

impl Status {
    /// The status of a run that wrote this reply whole.
    pub fn of(reply: &Reply) -> Status
        ensures { result ≡ status_of reply.now }
    {
        match reply {
            Reply::Statements(_) | Reply::Document(_) | Reply::Yes(_) => Status::Done,
            Reply::No(_) => Status::No,
            Reply::Usage => Status::Usage,
            Reply::TooLong | Reply::NotJson | Reply::TreeTooDeep => Status::Input,
            Reply::NotWhole(_) | Reply::NotBuilt | Reply::NoStatements => Status::Input,
            Reply::UnknownMethod(_) | Reply::NoKey(_) | Reply::ProofValue(_) => Status::Input,
            Reply::DeviceFault => Status::DeviceFault,
            Reply::ReadFault => Status::ReadFault,
            Reply::Memory => Status::Memory,
        }
    }
}
