ghost use Rattle.std.specs.Prelude.{◌≡◌};
ghost use Rattle.jd_answer.specs.Statuses.{status_code};

/// How a call of the program ended.
#[derive(Clone, Copy, PartialEq, Eq, Debug)]
pub enum Status {
    /// 0: the command did its work, and all that it checks is accepted.
    Done,
    /// 1: the report was written, and something in it is not accepted.
    NotAccepted,
    /// 2: the words are no command.
    Usage,
    /// 3: a file could not be read.
    ReadFault,
    /// 4: the report could not be written whole.
    WriteFault,
    /// 5: a Java file is refused.
    RefusedSource,
    /// 6: a proof file is refused.
    RefusedScript,
    /// 7: a limit is passed.
    Limit,
    /// 8: memory ran out.
    NoMemory,
}

impl Status {
    /// The exit status, from 0 to 8.
    pub fn code(&self) -> u8
        ensures { result ≡ status_code self.now }
    {
        match self {
            Status::Done => 0,
            Status::NotAccepted => 1,
            Status::Usage => 2,
            Status::ReadFault => 3,
            Status::WriteFault => 4,
            Status::RefusedSource => 5,
            Status::RefusedScript => 6,
            Status::Limit => 7,
            Status::NoMemory => 8,
        }
    }
}
