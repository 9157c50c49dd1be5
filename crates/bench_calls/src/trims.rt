// Trimming stacks.
use crate::reading::set_of;
use crate::times::times_done;
use bottoms::{ListTransducer, Tile};
use std::alloc::Global;
use transducers::{Stack, Transducer};
use trimming::Trim;

type Pair<T> = Stack<T, T>;

// Two of what a step makes, one on the other.
fn pair_of<T: Transducer + Drop, F: Fn() -> Option<T>>(make: F) -> Option<Pair<T>>
    requires { F.IsAlwaysCallable make }
{
    let lower = make()?;
    let upper = make()?;
    Stack::new(lower, upper).ok()
}

fn two_high(heap: Global, tiles: &[Tile]) -> Option<Pair<ListTransducer>> {
    pair_of(|| ListTransducer::new(heap, tiles).ok())
}

fn four_high(heap: Global, tiles: &[Tile]) -> Option<Pair<Pair<ListTransducer>>> {
    pair_of(|| two_high(heap, tiles))
}

// The tiles of a set text.
fn tiles_of(heap: Global, text: &[u8]) -> Option<Vec<Tile>> {
    let read = set_of(heap, text)?;
    let mut tiles = read.tiles;
    tiles.truncate(usize::from(read.set.tiles));
    Some(tiles)
}

// A number that the edges, with their slots, give; 0 where there is no edge.
fn sum_of<T: Transducer>(t: &T) -> u32 {
    let mut sum: u32 = 0;
    for i in 0..t.slots() {
        if let Some((from, to, _, _)) = t.slot(i) {
            let edge = i
                .wrapping_mul(7)
                .wrapping_add(from)
                .wrapping_mul(7)
                .wrapping_add(to);
            sum = sum.wrapping_mul(31).wrapping_add(edge).wrapping_add(1);
        }
    }
    sum
}

// The sum over the trimmed pile that a step makes of the text's tiles.
fn trimmed_sum<T: Transducer + Drop, F: FnOnce(&[Tile]) -> Option<T>>(
    heap: Global,
    text: &[u8],
    make: F,
) -> Option<u32>
    requires { F.IsAlwaysCallable make }
{
    let tiles = tiles_of(heap, text)?;
    let trim = Trim::new(heap, make(&tiles)?).ok()?;
    Some(sum_of(&trim))
}

// The sum over a trimmed stack of the text's tiles, 0 where there is none.
#[unsafe(no_mangle)]
pub extern "C" fn bench_trimmed_two(heap: Global, text: &[u8]) -> u32 {
    trimmed_sum(heap, text, |tiles| two_high(heap, tiles)).unwrap_or(0)
}

// The sum over a trimmed stack of stacks of the text's tiles, 0 where there is none.
#[unsafe(no_mangle)]
pub extern "C" fn bench_trimmed_four(heap: Global, text: &[u8]) -> u32 {
    trimmed_sum(heap, text, |tiles| four_high(heap, tiles)).unwrap_or(0)
}

// Trims a stack of stacks of the text's tiles so many times. It answers how often that went.
#[unsafe(no_mangle)]
pub extern "C" fn bench_trim_four(heap: Global, text: &[u8], times: u32) -> u32 {
    let Some(tiles) = tiles_of(heap, text) else {
        return 0;
    };
    times_done(times, || {
        four_high(heap, &tiles).is_some_and(|pile| Trim::new(heap, pile).is_ok())
    })
}
