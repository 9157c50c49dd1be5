// judge: reads set.txt and paper1.bin to paper9.bin in the folder that it is run in, files the papers in one docket, and prints a line for each.
#![tactic(auto)]

mod files;
mod filing;

use bottoms::{MOST_TILES, Tile};
use files::read_file;
use filing::judge_set;
use reports::set_line;
use settext::read_set;
use std::rt::Files;

// One byte more than a set text may have, so that a longer one is seen to be longer.
const TEXT_BYTES: u64 = 65536;

fn run<R: Files + AllocGlobal + Print>(rt: &R) -> anyhow::Result<()> {
    let heap = rt.alloc();
    let text = read_file(rt, "set.txt", TEXT_BYTES)?.unwrap_or(Vec::new(heap));
    let mut tiles = vec![in heap; Tile::default(); MOST_TILES]?;
    match read_set(&text, &mut tiles) {
        Ok(set) => judge_set(rt, set, &tiles)?,
        Err(fault) => rt.println(set_line(heap, fault)?)?,
    }
    Ok(())
}

fn main(rt: HostRuntime) -> anyhow::Result<()> {
    run(&rt)
}
