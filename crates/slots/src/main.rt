// slots: prints the counts and the edges of every catalogue row, of a small set, and of layers on it.
#![tactic(auto)]

use anyhow::Context;
use bottoms::{CatalogueTransducer, ListTransducer, Tile};
use std::alloc::Global;
use transducers::{Stack, Transducer, Turn};
use trimming::Trim;

// A line of counts, then a line for each slot with an edge, and the slot past the last.
fn show<T: Transducer>(rt: &impl Print, name: &str, t: &T) -> anyhow::Result<()> {
    let (states, letters, slots) = (t.states(), t.letters(), t.slots());
    println!(rt; "{name}: {states} states {letters} letters {slots} slots")?;
    for i in 0..=slots {
        if let Some((from, to, south, north)) = t.slot(i) {
            println!(rt; "{name} slot {i}: {from} {to} {south} {north}")?;
        }
    }
    Ok(())
}

fn tile(west: u8, east: u8, south: u8, north: u8) -> Tile {
    Tile {
        west,
        east,
        south,
        north,
    }
}

fn small_set(heap: Global) -> anyhow::Result<ListTransducer> {
    let tiles = [
        tile(0, 1, 0, 1),
        tile(1, 0, 1, 0),
        tile(1, 2, 1, 1),
        tile(2, 2, 0, 3),
        tile(3, 0, 3, 1),
    ];
    ListTransducer::new(heap, &tiles).ok().context("no set")
}

fn show_layers<R: AllocGlobal + Print>(rt: &R) -> anyhow::Result<()> {
    let heap = rt.alloc();
    show(rt, "set", &small_set(heap)?)?;
    show(rt, "turned", &Turn::new(small_set(heap)?))?;
    show(rt, "trimmed", &Trim::new(heap, small_set(heap)?)?)?;
    let pair = Stack::new(small_set(heap)?, small_set(heap)?);
    show(rt, "two high", &pair.ok().context("no stack")?)
}

fn run<R: AllocGlobal + Print>(rt: &R) -> anyhow::Result<()> {
    for row in 1..=8u8 {
        let name = format!(in rt.alloc(); "row {row}")?;
        let transducer = CatalogueTransducer::new(row).ok().context("no row")?;
        show(rt, name.as_str(), &transducer)?;
    }
    show_layers(rt)
}

fn main(rt: HostRuntime) -> anyhow::Result<()> {
    run(&rt)
}
