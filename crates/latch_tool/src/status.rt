// How a run of the program ends.
ghost use Rattle.std.specs.Prelude.{◌≡◌};
ghost use Rattle.latch_tool.specs.Codes.{code_of};

/// How a run of the program ends.
#[derive(Clone, Copy, Debug, PartialEq, Eq)]
pub enum Status {
    /// The output was written.
    Done,
    /// The words are no form of the program's.
    Usage,
    /// The input is no script: the line and the cause of its first fault.
    Script { line: u32, cause: u32 },
    /// The source failed.
    ReadFault,
    /// The sink failed.
    WriteFault,
    /// Memory was refused.
    Memory,
    /// An opening of the script needs more rows than were free.
    RowsOut { free: u32, need: u32 },
}

impl Status {
    /// The status as the process ends with it.
    pub fn code(self) -> u8
        ensures { result ≡ code_of self }
    {
        match self {
            Status::Done => 0,
            Status::Usage => 2,
            Status::Script { .. } => 3,
            Status::ReadFault => 4,
            Status::WriteFault => 5,
            Status::Memory => 6,
            Status::RowsOut { .. } => 7,
        }
    }
}
