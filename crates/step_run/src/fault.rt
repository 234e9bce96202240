// Why a run gives no output.
ghost use Rattle.std.specs.Prelude.{◌≡◌, IsSome, Some};
ghost use Rattle.step_run.specs.Faults.{fault_of};

use sequence_core::desk::SeqRefusal;
use sequence_core::fault::SeqFault;
use span_key::Memory;

/// Why a run gave no output.
#[derive(Clone, Copy, Debug, PartialEq, Eq)]
pub enum RunFault {
    /// An opening needs more rows than are free.
    RowsOut { free: u32, need: u32 },
    /// Memory was refused.
    Memory,
}

impl From<Memory> for RunFault {
    ghost use Rattle.step_run.specs.declared.fault.RunFault.TheVariants.{Memory as no_memory};

    ghost from_gives = { λ _ e. e ≡ no_memory };

    fn from(_refused: Memory) -> RunFault {
        RunFault::Memory
    }
}

/// The fault of a run in which a request didn't begin, though there is place for its latches.
pub fn run_fault(refusal: SeqRefusal) -> RunFault
    requires { IsSome (fault_of refusal.fault) }
    ensures { fault_of refusal.fault ≡ Some result }
{
    match refusal.fault {
        SeqFault::LatchesFull { held: _, asked: _ } => unreachable!(),
        SeqFault::RowsOut { free, need } => RunFault::RowsOut { free, need },
        SeqFault::Memory => RunFault::Memory,
    }
}
