// Why a paper is turned down.
ghost use Rattle.std.specs.Prelude.{◌≡◌};
ghost use Rattle.rules.specs.Faults.{docket_fault_number, docket_fault_place};
ghost use Rattle.rules.specs.declared.fault.DocketFault.TheVariants.{Paper as of_paper};

use papers::PaperFault;

// The first fault of a paper. Most hold the place of a number in the paper; `NoFall` holds a slot.
#[derive(Clone, Copy, PartialEq, Eq, Debug)]
pub enum DocketFault {
    // the paper could not be read
    Paper(PaperFault),
    // a torus whose width, row count and cells do not fit together
    Shape,
    // a rank above 65,535
    HighRank(u32),
    // a slot number without an edge
    NoEdge(u32),
    // an edge that does not meet the one before it
    Apart(u32),
    // the last cell of a row that does not close
    Open(u32),
    // an edge that does not meet the one above
    ApartAbove(u32),
    // not one rank for each state
    RankCount,
    // the slot of an edge whose rank does not fall
    NoFall(u32),
}

impl DocketFault {
    pub fn number(self) -> u8
        ensures { result ≡ docket_fault_number self }
    {
        match self {
            DocketFault::Paper(fault) => fault.number(),
            DocketFault::Shape => 17,
            DocketFault::HighRank(_) => 18,
            DocketFault::NoEdge(_) => 33,
            DocketFault::Apart(_) => 34,
            DocketFault::Open(_) => 35,
            DocketFault::ApartAbove(_) => 36,
            DocketFault::RankCount => 37,
            DocketFault::NoFall(_) => 38,
        }
    }

    pub fn place(self) -> u32
        ensures { result ≡ docket_fault_place self }
    {
        match self {
            DocketFault::Paper(fault) => u32::from(fault.place()),
            DocketFault::Shape | DocketFault::RankCount => 0,
            DocketFault::HighRank(place)
            | DocketFault::NoEdge(place)
            | DocketFault::Apart(place)
            | DocketFault::Open(place)
            | DocketFault::ApartAbove(place)
            | DocketFault::NoFall(place) => place,
        }
    }
}

impl From<PaperFault> for DocketFault {
    ghost from_gives = { λ fault r. r ≡ of_paper fault };

    fn from(fault: PaperFault) -> DocketFault {
        Self::Paper(fault)
    }
}
