// Answers as plain numbers, for C.
use rules::{DocketFault, Ends, Width};

// For C, which has no enum with values.
const ENDLESS: u32 = 0xffff_ffff;

// What filing answered. Number 0 is accepted, and then the two widths stand; any other is the fault's.
// C has no Result, so the answer is flat.
#[repr(C)]
#[derive(Clone, Copy, Default)]
pub struct Answer {
    pub number: u32,
    pub place: u32,
    pub floor: u32,
    pub ceiling: u32,
}

fn width_number(width: Width) -> u32 {
    match width {
        Width::Number(n) => n,
        Width::Endless => ENDLESS,
    }
}

impl From<Result<Ends, DocketFault>> for Answer {
    fn from(answer: Result<Ends, DocketFault>) -> Answer {
        match answer {
            Ok(ends) => Answer {
                floor: width_number(ends.floor),
                ceiling: width_number(ends.ceiling),
                ..Answer::default()
            },
            Err(fault) => Answer {
                number: u32::from(fault.number()),
                place: fault.place(),
                ..Answer::default()
            },
        }
    }
}
