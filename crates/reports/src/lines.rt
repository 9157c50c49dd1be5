// The lines that judge prints. A contract gives the exact bytes of each, unless there is no memory for them.
ghost use Rattle.std.specs.Prelude.{◌≡◌, IfOk, string_bytes};
ghost use Rattle.reports.specs.Lines.{paper_accepted, paper_refused, paper_text, pile_refused, set_refused};

use rules::{DocketFault, Ends};
use setgrammar::TextFault;
use std::alloc::{AllocError, Global};

// The line of a set text that was refused.
pub fn set_line(heap: Global, fault: TextFault) -> Result<String, AllocError>
    ensures { IfOk result (λ s. string_bytes s ≡ set_refused fault) }
{
    format!(in heap;
        "set refused {} line {} column {}",
        fault.number(),
        fault.line(),
        fault.column()
    )
}

fn accepted_line(heap: Global, paper: u32, ends: Ends) -> Result<String, AllocError>
    ensures { IfOk result (λ s. string_bytes s ≡ paper_accepted paper ends) }
{
    format!(in heap;
        "paper {paper} accepted floor {} ceiling {}",
        ends.floor, ends.ceiling
    )
}

fn refused_line(heap: Global, paper: u32, fault: DocketFault) -> Result<String, AllocError>
    ensures { IfOk result (λ s. string_bytes s ≡ paper_refused paper fault) }
{
    format!(in heap;
        "paper {paper} refused {} at {}",
        fault.number(),
        fault.place()
    )
}

// The line of what filing a paper answered.
pub fn paper_line(
    heap: Global,
    paper: u32,
    answer: Result<Ends, DocketFault>,
) -> Result<String, AllocError>
    ensures { IfOk result (λ s. string_bytes s ≡ paper_text paper answer) }
{
    match answer {
        Ok(ends) => accepted_line(heap, paper, ends),
        Err(fault) => refused_line(heap, paper, fault),
    }
}

// The line of a pile that was refused with this number, as `PileFault::number` gives it. Callers are promised any number.
pub fn pile_line(heap: Global, number: u8) -> Result<String, AllocError>
    ensures { IfOk result (λ s. string_bytes s ≡ pile_refused number) }
{
    format!(in heap; "pile refused {number}")
}
