// One case: a set text and its papers.
use crate::cursor::Cursor;
use anyhow::Context;
use bottoms::{MOST_TILES, Tile};
use piles::SetDocket;
use reports::{paper_line, pile_line, set_line};
use settext::read_set;

// Files the papers of a case; without a docket they are passed over.
fn file_papers<R: AllocGlobal + Print>(
    rt: &R,
    mut docket: Option<SetDocket>,
    cursor: &mut Cursor<'_>,
) -> anyhow::Result<()> {
    let count = cursor.byte().unwrap_or(0);
    for k in 1..=u32::from(count) {
        let size = cursor.word().unwrap_or(0);
        // Rust has no From of u32 for usize.
        let paper = cursor.part(size as usize);
        if let Some(docket) = &mut docket {
            rt.println(paper_line(rt.alloc(), k, docket.file(paper))?)?;
        }
    }
    Ok(())
}

// The docket of a set text, or none, with the line that says why. judge ends there, and here the next case follows.
fn open_case<R: AllocGlobal + Print>(rt: &R, text: &[u8]) -> anyhow::Result<Option<SetDocket>> {
    let heap = rt.alloc();
    let mut tiles = vec![in heap; Tile::default(); MOST_TILES]?;
    let refusal = match read_set(text, &mut tiles) {
        Ok(set) => match SetDocket::of_set(heap, set, &tiles) {
            Ok(docket) => return Ok(Some(docket)),
            Err(fault) => pile_line(heap, fault.number().context("out of memory")?)?,
        },
        Err(fault) => set_line(heap, fault)?,
    };
    rt.println(refusal)?;
    Ok(None)
}

// Prints what judge would print of a set text and the papers behind it.
pub fn judge_case<R: AllocGlobal + Print>(
    rt: &R,
    text: &[u8],
    cursor: &mut Cursor<'_>,
) -> anyhow::Result<()> {
    let docket = open_case(rt, text)?;
    file_papers(rt, docket, cursor)
}
