// A docket over the set's pile, and its papers.
use crate::files::read_file;
use anyhow::Context;
use bottoms::Tile;
use piles::SetDocket;
use reports::{paper_line, pile_line};
use setgrammar::SetText;
use std::rt::Files;

const MOST_PAPERS: u32 = 9;
// One byte more than a paper may have, so that a longer one is seen to be longer.
const PAPER_BYTES: u64 = 32769;

// Files paper1.bin to paper9.bin until one is missing, and prints a line for each.
fn file_papers<R: Files + AllocGlobal + Print>(
    rt: &R,
    mut docket: SetDocket,
) -> anyhow::Result<()> {
    let heap = rt.alloc();
    for k in 1..=MOST_PAPERS {
        let name = format!(in heap; "paper{k}.bin")?;
        let Some(paper) = read_file(rt, name.as_str(), PAPER_BYTES)? else {
            break;
        };
        rt.println(paper_line(heap, k, docket.file(&paper))?)?;
    }
    Ok(())
}

// Opens a docket over the pile that the set text names, and files the papers.
pub fn judge_set<R: Files + AllocGlobal + Print>(
    rt: &R,
    set: SetText,
    tiles: &[Tile],
) -> anyhow::Result<()> {
    let heap = rt.alloc();
    match SetDocket::of_set(heap, set, tiles) {
        Ok(docket) => file_papers(rt, docket),
        Err(fault) => {
            let number = fault.number().context("out of memory")?;
            rt.println(pile_line(heap, number)?)?;
            Ok(())
        }
    }
}
