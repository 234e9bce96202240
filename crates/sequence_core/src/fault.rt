// Why a desk can't be made, and why a request can't begin.
ghost use Rattle.std.specs.Prelude.{◌≡◌};

use span_key::Memory;

/// One of the sizes.
#[derive(Clone, Copy, Debug, PartialEq, Eq)]
pub enum Which {
    Latches,
    Lanes,
    Rows,
}

/// Why a desk can't be made: the first of its sizes that is out of bounds, or memory.
#[derive(Clone, Copy, Debug, PartialEq, Eq)]
pub enum NewFault {
    BadSizes { which: Which },
    Memory,
}

impl From<Memory> for NewFault {
    ghost use Rattle.sequence_core.specs.declared.fault.NewFault.TheVariants.{Memory as no_memory};

    ghost from_gives = { λ _ e. e ≡ no_memory };

    fn from(_: Memory) -> NewFault {
        NewFault::Memory
    }
}

/// Why a request can't begin: beside `held` latches there is no place for the `asked` ones; they need more rows than are `free`; or memory.
#[derive(Clone, Copy, Debug, PartialEq, Eq)]
pub enum SeqFault {
    LatchesFull { held: u32, asked: u32 },
    RowsOut { free: u32, need: u32 },
    Memory,
}

impl From<Memory> for SeqFault {
    ghost use Rattle.sequence_core.specs.declared.fault.SeqFault.TheVariants.{Memory as no_memory};

    ghost from_gives = { λ _ e. e ≡ no_memory };

    fn from(_: Memory) -> SeqFault {
        SeqFault::Memory
    }
}
