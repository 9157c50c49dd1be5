// cases: judges every case of cases.bin, made by the second program, and prints what judge would print of each.
#![tactic(auto)]

mod cursor;
mod judging;

use cursor::Cursor;
use judging::judge_case;
use std::fs;
use std::rt::Files;

// A text of this length is no case: it marks the end, in the file too.
const END: u32 = 0xffff_ffff;

fn run<R: Files + AllocGlobal + Print>(rt: &R) -> anyhow::Result<()> {
    let bytes = fs::read(rt, "cases.bin")?;
    let mut cursor = Cursor::new(&bytes);
    for k in 1..=100000u32 {
        let Some(size) = cursor.word().filter(|&size| size != END) else {
            break;
        };
        // Rust has no From of u32 for usize.
        let text = cursor.part(size as usize);
        println!(rt; "case {k}")?;
        judge_case(rt, text, &mut cursor)?;
    }
    Ok(())
}

fn main(rt: HostRuntime) -> anyhow::Result<()> {
    run(&rt)
}
