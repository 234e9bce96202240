// Why a script or a field isn't read. Causes are numbers of the script format, from 1 to 18; the format names them.

ghost use Rattle.std.specs.Prelude.{◌≡◌};
ghost use Rattle.script.specs.Causes.{number_of};
ghost use Rattle.script.specs.declared.fault.FieldFault.TheVariants.{Bad, Memory as field_memory};
ghost use Rattle.script.specs.declared.fault.ReadScript.TheVariants.{Memory as script_memory};

use std::alloc::{AllocError, AllocFailed};

/// The causes of a fault, in the order of their numbers.
#[derive(Clone, Copy, Debug, PartialEq, Eq)]
pub enum FaultCause {
    /// The input ends before a whole `end` line. The line is one more than the number of line feeds.
    NoEnd,
    /// Line 1 is not `latch script 1`.
    OtherFirstLine,
    /// The first field is no command, or the number of fields is wrong.
    NoCommand,
    /// The session field is no number of a session.
    NoSession,
    /// The name field is no name.
    NoName,
    /// The policy field is no policy.
    NoPolicy,
    /// The field behind the policy begins with `turns=` and is no number of turns.
    NoTurns,
    /// A latch field is no latch, whatever the lengths of its keys.
    NoLatch,
    /// A key or an end has more than 256 bytes.
    LongKey,
    /// The end is not greater than the key.
    Reversed,
    /// The line has more than 16 latches.
    ManyLatches,
    /// The session has a request that is not released.
    BusySession,
    /// The name was opened before.
    UsedName,
    /// The name is not opened, or was released.
    NoOpenName,
    /// `check` on a name that was not opened by `optimistic`, or that has had a `wait`.
    NoCheck,
    /// `end` while a request is not released.
    OpenAtEnd,
    /// Bytes follow the `end` line. The line is the next one.
    BytesBehindEnd,
    /// The input has more than 4,194,304 bytes. The line is 0.
    TooLong,
}

impl FaultCause {
    /// The number of the cause, from 1 to 18.
    #[inline]
    pub fn number(self) -> u32
        ensures { result ≡ number_of self }
    {
        match self {
            FaultCause::NoEnd => 1,
            FaultCause::OtherFirstLine => 2,
            FaultCause::NoCommand => 3,
            FaultCause::NoSession => 4,
            FaultCause::NoName => 5,
            FaultCause::NoPolicy => 6,
            FaultCause::NoTurns => 7,
            FaultCause::NoLatch => 8,
            FaultCause::LongKey => 9,
            FaultCause::Reversed => 10,
            FaultCause::ManyLatches => 11,
            FaultCause::BusySession => 12,
            FaultCause::UsedName => 13,
            FaultCause::NoOpenName => 14,
            FaultCause::NoCheck => 15,
            FaultCause::OpenAtEnd => 16,
            FaultCause::BytesBehindEnd => 17,
            FaultCause::TooLong => 18,
        }
    }

    // The fault of a field or a line for this cause.
    #[inline]
    pub(crate) fn fault(self) -> FieldFault
        ensures { result ≡ Bad (number_of self) }
    {
        FieldFault::Bad {
            cause: self.number(),
        }
    }
}

/// The first line that breaks a rule, from 1, and the number of the cause. Line 0 stands for an input that is too long.
#[derive(Clone, Copy, Debug, PartialEq, Eq)]
pub struct ScriptFault {
    pub line: u32,
    pub cause: u32,
}

/// Why bytes are not read as a script.
#[derive(Clone, Copy, Debug, PartialEq, Eq)]
pub enum ReadScript {
    /// They spell none.
    Bad(ScriptFault),
    Memory,
}

/// Why a field or a line is not read.
#[derive(Clone, Copy, Debug, PartialEq, Eq)]
pub enum FieldFault {
    /// It breaks a rule: the first cause that holds.
    Bad { cause: u32 },
    Memory,
}

impl From<AllocError> for FieldFault {
    ghost from_gives = { λ _ e. e ≡ field_memory };

    fn from(_e: AllocError) -> FieldFault {
        FieldFault::Memory
    }
}

impl<T: Drop> From<AllocFailed<T>> for FieldFault {
    ghost from_gives = { λ _ e. e ≡ field_memory };

    fn from(_e: AllocFailed<T>) -> FieldFault {
        FieldFault::Memory
    }
}

impl<T: Drop> From<AllocFailed<T>> for ReadScript {
    ghost from_gives = { λ _ e. e ≡ script_memory };

    fn from(_e: AllocFailed<T>) -> ReadScript {
        ReadScript::Memory
    }
}
