// The space of an image: what the lines of a text say, and what is derived from it.
ghost use Rattle.std.specs.Prelude.{◌≡◌};
ghost use Rattle.image.specs.Lines.{lines_job, no_job};

use crate::job_lines::JobLines;
use crate::place::Place;
use arrayvec::ArrayVec;

// A node's fragment: each state's place, and the states that are in it, ascending.
#[derive(Drop)]
pub struct Fragment {
    pub places: [Place; 256],
    pub states: ArrayVec<u8, 256>,
}

// The arrays are as long as a job may be: there is no heap.
// A chain is told by one more than an edge, 0 where it has none: an Option of a word takes two, and the space, which each call clears, would be 8 KB larger.
#[derive(Drop)]
pub struct Space {
    pub lines: JobLines,
    // by state: its first edge; one more entry closes the last state's run
    pub first: [u16; 257],
    // by node and state: the last of the node's edges into it
    pub last: [[u16; 256]; 8],
    // by edge: the edge before it of the same node into the same state
    pub next: [u16; 2048],
    // by node
    pub fragments: [Fragment; 8],
}

impl Space {
    // Nothing is laid.
    pub fn new() -> Self
        ensures { lines_job result.lines ≡ no_job }
    {
        Space {
            lines: JobLines::new(),
            first: [0; 257],
            last: [[0; 256]; 8],
            next: [0; 2048],
            fragments: std::array::from_fn(|_| Fragment {
                places: [Place::Outside; 256],
                states: ArrayVec::new(),
            }),
        }
    }
}
