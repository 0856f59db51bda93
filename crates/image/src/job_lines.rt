// What the lines of a job text say, as the reader lays it.
ghost use Rattle.std.specs.Prelude.{◌≡◌};
ghost use Rattle.image.specs.Lines.{lines_job, no_job};

use arrayvec::ArrayVec;
use job::subformula::Subformula;

// A state line. The label's bits are the atoms that hold there.
#[derive(Clone, Copy, Debug, Default, PartialEq, Eq)]
pub struct State {
    pub owner: u8,
    pub label: u16,
}

// An edge line.
#[derive(Clone, Copy, Debug, Default, PartialEq, Eq)]
pub struct Edge {
    pub source: u8,
    pub target: u8,
}

// How many nodes line 1 says, and what the lines behind it say: line 1 says how many there are of each.
#[derive(Drop)]
pub struct JobLines {
    pub nodes: usize,
    pub states: ArrayVec<State, 256>,
    pub edges: ArrayVec<Edge, 2048>,
    pub formula: ArrayVec<Subformula, 32>,
}

impl JobLines {
    // None is laid.
    #[tactic(auto, unfolding(crate::specs::Lines::lines_job))]
    pub fn new() -> Self
        ensures { lines_job result ≡ no_job }
    {
        JobLines {
            nodes: 0,
            states: ArrayVec::new(),
            edges: ArrayVec::new(),
            formula: ArrayVec::new(),
        }
    }
}
