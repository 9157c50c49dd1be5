// Why a block or a paper is not taken.
ghost use Rattle.std.specs.Prelude.{◌≡◌};
ghost use Rattle.papers.specs.declared.fault.PaperFault.TheVariants.{Block as of_block};
ghost use Rattle.papers.specs.Faults.{block_blamed, block_fault, block_fault_number, block_fault_place, paper_fault_number, paper_fault_place};

// The first fault of a block. All but `Length` hold the block's due place.
#[derive(Clone, Copy, PartialEq, Eq, Debug)]
pub enum BlockFault {
    Length,
    Check(u16),
    Place(u16),
    Kind(u16),
    Count(u16),
    Padding(u16),
}

impl BlockFault {
    pub fn number(self) -> u8
        ensures { result ≡ block_fault_number self }
    {
        match self {
            BlockFault::Length => 11,
            BlockFault::Check(_) => 12,
            BlockFault::Place(_) => 13,
            BlockFault::Kind(_) => 14,
            BlockFault::Count(_) => 15,
            BlockFault::Padding(_) => 16,
        }
    }

    // The block that it blames, if it blames one.
    pub fn block(self) -> Option<u16>
        ensures { result ≡ block_blamed self }
    {
        match self {
            BlockFault::Length => None,
            BlockFault::Check(block)
            | BlockFault::Place(block)
            | BlockFault::Kind(block)
            | BlockFault::Count(block)
            | BlockFault::Padding(block) => Some(block),
        }
    }

    // The block that it blames, or 0.
    pub fn place(self) -> u16
        ensures { result ≡ block_fault_place self }
    {
        self.block().unwrap_or(0)
    }
}

// The first fault of a paper: it is not 1 to 64 whole blocks, or the fault of one of its blocks.
// An enum of its own and no `Option`, since each crate's fault is turned into the next one's by `From`.
#[derive(Clone, Copy, PartialEq, Eq, Debug)]
pub enum PaperFault {
    Length,
    Block(BlockFault),
}

impl PaperFault {
    // The fault of a block, if it is one.
    pub fn block_fault(self) -> Option<BlockFault>
        ensures { result ≡ block_fault self }
    {
        match self {
            PaperFault::Length => None,
            PaperFault::Block(fault) => Some(fault),
        }
    }

    pub fn number(self) -> u8
        ensures { result ≡ paper_fault_number self }
    {
        self.block_fault().map_or(11, BlockFault::number)
    }

    pub fn place(self) -> u16
        ensures { result ≡ paper_fault_place self }
    {
        self.block_fault().map_or(0, BlockFault::place)
    }
}

impl From<BlockFault> for PaperFault {
    ghost from_gives = { λ fault r. r ≡ of_block fault };

    fn from(fault: BlockFault) -> PaperFault {
        Self::Block(fault)
    }
}
