// One walk over the edge lines, for document 01's questions 6 and 7: what is kept after an edge line, as a function of what was kept before and of that line's
// two numbers alone, and what both questions are answered from when the last line is behind. Whoever reads the lines makes the walk.
#![tactic(auto)]

ghost use Rattle.std.specs.Prelude.{◌≡◌, ◌≤◌, ◌<◌, true, not, IfSome, length, set, position, unwrap_or};
ghost use Rattle.edge_pass.specs.EdgePass.{start, is_right, order_after, after, terminal_state};

use layout::lines::right_after;

// For question 6, 40 bytes: the number of states, how many edge lines are behind, how many of them are right before the first that is not, and the
// pair on the last line behind, right or not.
#[derive(Clone, Copy, Debug, PartialEq, Eq)]
pub struct Order {
    pub states: usize,
    pub lines: usize,
    pub right: usize,
    pub source: usize,
    pub target: usize,
}

// All that is kept: for question 7 besides, by state, whether a line starts from it. 40 and 256 bytes, 296 of the 1,024 that are allowed.
#[derive(Drop)]
pub struct Kept {
    pub order: Order,
    pub starts: [bool; 256],
}

impl Order {
    // Question 6, of the edge line that comes next.
    #[tactic(auto, unfolding(crate::specs::EdgePass::is_right, job::specs::Questions::less))]
    fn is_right(self, source: usize, target: usize) -> bool
        ensures { result ≡ is_right self source target }
    {
        source < self.states
            && target < self.states
            && (self.lines == 0 || (self.source, self.target) < (source, target))
    }

    // What is kept after an edge line with these numbers.
    pub fn after(self, source: usize, target: usize) -> Order
        requires { (self.lines ≤ 2048) × (self.right ≤ 2048) }
        ensures { result ≡ order_after self source target }
    {
        let ok = self.is_right(source, target);
        Order {
            lines: self.lines + 1,
            right: right_after(self.right, self.lines, ok),
            source,
            target,
            ..self
        }
    }
}

// What is kept for question 7: the state that a line starts from is marked, if it is one of 256. Question 6 refuses any other.
pub fn mark_start(starts: &mut [bool; 256], source: usize)
    ensures { starts.new ≡ set starts.old source true }
{
    if source < starts.len() {
        starts[source] = true;
    }
}

fn first_unmarked(marks: &[bool]) -> Option<usize>
    ensures { result ≡ position not marks.now }
{
    marks.iter().position(|&marked| !marked)
}

impl Kept {
    // Before the first edge line: line 1 has told the number of states.
    #[tactic(auto, unfolding(crate::specs::EdgePass::start))]
    pub fn start(states: usize) -> Self
        ensures { result ≡ start states }
    {
        let order = Order {
            states,
            lines: 0,
            right: 0,
            source: 0,
            target: 0,
        };
        Kept {
            order,
            starts: [false; 256],
        }
    }

    // An edge line with these numbers.
    #[tactic(auto, unfolding(crate::specs::EdgePass::after))]
    pub fn after(&mut self, source: usize, target: usize)
        requires { (self.old.order.lines ≤ 2048) × (self.old.order.right ≤ 2048) }
        ensures { self.new ≡ after self.old source target }
    {
        self.order = self.order.after(source, target);
        mark_start(&mut self.starts, source);
    }

    // The lowest state that no edge line starts from, if there is one.
    pub fn terminal_state(&self) -> Option<usize>
        requires { self.now.order.states ≤ 256 }
        ensures lowest { unwrap_or result self.now.order.states ≡ terminal_state self.now.starts self.now.order.states }
        ensures below { IfSome result (λ s. s < self.now.order.states) }
    {
        first_unmarked(&self.starts[..self.order.states])
    }
}
