// Links, each from one state to another.
ghost use Rattle.std.specs.Prelude.{◌≡◌, map, IfOk};
ghost use Rattle.trimming.specs.Links.{AreEdges, turned};

use std::alloc::{AllocError, Global};
use transducers::Transducer;

// There are at most 4,096 states, so 16 bits hold one.
#[derive(Clone, Copy)]
pub(crate) struct Link {
    pub(crate) from: u16,
    pub(crate) to: u16,
}

// A link for each slot that holds an edge. Asks each slot once.
pub(crate) fn links_of<T: Transducer>(heap: Global, below: &T) -> Result<Vec<Link>, AllocError>
    ensures { IfOk result (λ v. AreEdges (T.meaning below.now) (T.meaning below.now).slots v.items) }
{
    let mut links = Vec::new(heap);
    for i in 0..below.slots() {
        if let Some((from, to, _, _)) = below.slot(i) {
            // Rust has no `From` of `u32` for `u16`.
            links.push(Link {
                from: from as u16,
                to: to as u16,
            })?;
        }
    }
    Ok(links)
}

// Turns each link round.
pub(crate) fn turn_round(links: &mut [Link])
    ensures { links.new ≡ map turned links.old }
{
    for link in links.iter_mut() {
        *link = Link {
            from: link.to,
            to: link.from,
        };
    }
}
