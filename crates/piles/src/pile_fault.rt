// Why a pile is not made.
ghost use Rattle.std.specs.Prelude.{◌≡◌};
ghost use Rattle.piles.specs.PileFaults.{of_list, pile_fault_number};
ghost use Rattle.piles.specs.declared.pile_fault.PileFault.TheVariants.{Memory, Row, Stack};

use bottoms::{ListFault, RowFault};
use std::alloc::AllocError;
use transducers::StackFault;

// The list of tiles, the catalogue row or a stack is refused, or there is no memory. A number that names no pile is
// refused as a list.
#[derive(Clone, Copy, PartialEq, Eq, Debug)]
pub enum PileFault {
    List,
    Row,
    Stack(StackFault),
    Memory,
}

impl PileFault {
    // The fault's number; want of memory has none.
    pub fn number(self) -> Option<u8>
        ensures { result ≡ pile_fault_number self }
    {
        match self {
            PileFault::List => Some(39),
            PileFault::Row => Some(40),
            PileFault::Stack(StackFault::States) => Some(31),
            PileFault::Stack(StackFault::Slots) => Some(32),
            PileFault::Memory => None,
        }
    }
}

impl From<StackFault> for PileFault {
    ghost from_gives = { λ fault r. r ≡ Stack fault };

    fn from(fault: StackFault) -> PileFault {
        Self::Stack(fault)
    }
}

impl From<AllocError> for PileFault {
    ghost from_gives = { λ _ r. r ≡ Memory };

    fn from(_fault: AllocError) -> PileFault {
        Self::Memory
    }
}

impl From<RowFault> for PileFault {
    ghost from_gives = { λ _ r. r ≡ Row };

    fn from(_fault: RowFault) -> PileFault {
        Self::Row
    }
}

impl From<ListFault> for PileFault {
    ghost from_gives = { λ fault r. r ≡ of_list fault };

    fn from(fault: ListFault) -> PileFault {
        match fault {
            ListFault::Length => Self::List,
            ListFault::Memory => Self::Memory,
        }
    }
}
