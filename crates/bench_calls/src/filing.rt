// Opening dockets, and filing papers in one.
use crate::answer::Answer;
use crate::reading::set_of;
use crate::times::times_done;
use piles::SetDocket;
use std::alloc::Global;

// A docket over the pile that the text names.
fn docket_of(heap: Global, text: &[u8]) -> Option<SetDocket> {
    let read = set_of(heap, text)?;
    SetDocket::of_set(heap, read.set, &read.tiles).ok()
}

// Files a paper so many times in one docket over the pile that the text names, and gives the last answer.
// It answers whether there is such a docket.
#[unsafe(no_mangle)]
pub extern "C" fn bench_file(
    heap: Global,
    text: &[u8],
    paper: &[u8],
    times: u32,
    answer: &mut Answer,
) -> bool {
    let Some(mut docket) = docket_of(heap, text) else {
        return false;
    };
    for _ in 0..times {
        *answer = docket.file(paper).into();
    }
    true
}

// Opens a docket over the pile that the text names, so many times. It answers how often there was one.
#[unsafe(no_mangle)]
pub extern "C" fn bench_open(heap: Global, text: &[u8], times: u32) -> u32 {
    let Some(read) = set_of(heap, text) else {
        return 0;
    };
    times_done(times, || {
        SetDocket::of_set(heap, read.set, &read.tiles).is_ok()
    })
}
