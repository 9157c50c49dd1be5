// Papers as bytes: blocks of 512 bytes, each with its own check, and what a paper of them holds.
#![tactic(auto)]

mod block;
mod bytes;
mod fault;
mod kind;
mod paper;

pub use block::{BLOCK_BYTES, BLOCK_NUMBERS, Block, read_block};
pub use fault::{BlockFault, PaperFault};
pub use kind::{Kind, UnknownKind};
pub use paper::{Paper, read_paper};
