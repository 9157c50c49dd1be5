// Why a list of tiles, or a row of the catalogue, makes no transducer.
ghost use Rattle.std.specs.Prelude.{◌≡◌};
ghost use Rattle.bottoms.specs.declared.fault.ListFault.TheVariants.{Memory};

use std::alloc::AllocError;

// The list is not of 1 to 1,024 tiles, or there is no memory for it.
#[derive(Clone, Copy, PartialEq, Eq, Debug)]
pub enum ListFault {
    Length,
    Memory,
}

impl From<AllocError> for ListFault {
    ghost from_gives = { λ _ r. r ≡ Memory };

    fn from(_fault: AllocError) -> ListFault {
        ListFault::Memory
    }
}

// The catalogue has rows 1 to 8 and no other.
#[derive(Clone, Copy, PartialEq, Eq, Debug)]
pub struct RowFault;
