// A decoded job: a space whose every part is laid. Each accessor is one load or two.
ghost use Rattle.std.specs.Prelude.{◌≡◌, ◌<◌, ◌≤◌, IfSome};
ghost use Rattle.job.specs.Job.{size, subformula_count, owner as owner_of, subformula as subformula_of};
ghost use Rattle.job.specs.Written.{edge_count, label as label_of, Operands};
ghost use Rattle.image.specs.Lines.{lines_job};
ghost use Rattle.image.specs.Image.{IsImage, edge_from, edge_to, first_edge, last_into, edge_told, place_of, fragment as fragment_of};

use crate::place::Place;
use crate::space::Space;
use job::subformula::Subformula;

// The space is well made. (Truncated, since that a state has an edge out has a proof for each such edge.)
#[derive(Clone, Copy)]
pub struct Image<'a> {
    space: &'a Space,
    pub ghost well_made: { ∥ IsImage space.now ∥₁ },
}

impl<'a> Image<'a> {
    ghost use Rattle.image.specs.Denoted.{job_of};

    // The image in a space whose parts are all laid.
    pub fn new(space: &'a Space) -> Self
        requires { IsImage space.now }
        ensures { job_of result ≡ lines_job space.now.lines }
    {
        Image { space }
    }

    pub fn states(&self) -> usize
        ensures { (result ≡ size (job_of self.now)) × (1 ≤ result) × (result ≤ 256) }
    {
        self.space.lines.states.len()
    }

    pub fn subformulas(&self) -> usize
        ensures { (result ≡ subformula_count (job_of self.now)) × (1 ≤ result) × (result ≤ 32) }
    {
        self.space.lines.formula.len()
    }

    pub fn nodes(&self) -> usize
        ensures { (result ≡ (job_of self.now).nodes) × (1 ≤ result) × (result ≤ 8) }
    {
        self.space.lines.nodes
    }

    pub fn owner(&self, s: usize) -> usize
        requires { s < size (job_of self.now) }
        ensures { (result ≡ owner_of (job_of self.now) s) × (result < (job_of self.now).nodes) × (result < 8) }
    {
        usize::from(self.space.lines.states.as_slice()[s].owner)
    }

    pub fn label(&self, s: usize) -> u16
        requires { s < size (job_of self.now) }
        ensures { result ≡ label_of (job_of self.now) s }
    {
        self.space.lines.states.as_slice()[s].label
    }

    pub fn source(&self, e: usize) -> usize
        requires { e < edge_count (job_of self.now) }
        ensures { (result ≡ edge_from (job_of self.now).structure e) × (result < size (job_of self.now)) × (result < 256) }
    {
        usize::from(self.space.lines.edges.as_slice()[e].source)
    }

    pub fn target(&self, e: usize) -> usize
        requires { e < edge_count (job_of self.now) }
        ensures { (result ≡ edge_to (job_of self.now).structure e) × (result < size (job_of self.now)) × (result < 256) }
    {
        usize::from(self.space.lines.edges.as_slice()[e].target)
    }

    // The first edge out of state s; for the number of states, the end of the last state's edges.
    pub fn first_edge(&self, s: usize) -> usize
        requires { s ≤ size (job_of self.now) }
        ensures { (result ≡ first_edge (job_of self.now).structure s) × (result ≤ edge_count (job_of self.now)) × (result ≤ 2048) }
    {
        usize::from(self.space.first[s])
    }

    // The last of node n's edges into state s.
    pub fn last_into(&self, n: usize, s: usize) -> Option<usize>
        requires { (n < (job_of self.now).nodes) × (s < size (job_of self.now)) }
        ensures is { result ≡ edge_told (last_into (job_of self.now) n s (edge_count (job_of self.now))) }
        ensures upper_bound { IfSome result (λ e. e < edge_count (job_of self.now)) }
    {
        usize::from(self.space.last[n][s]).checked_sub(1)
    }

    // The edge before e of the same node into the same state.
    pub fn next_into(&self, e: usize) -> Option<usize>
        requires { e < edge_count (job_of self.now) }
        ensures is { result
            ≡ edge_told (last_into (job_of self.now) (owner_of (job_of self.now) (edge_from (job_of self.now).structure e))
            (edge_to (job_of self.now).structure e) e) }
        ensures upper_bound { IfSome result (λ d. d < e) }
    {
        usize::from(self.space.next[e]).checked_sub(1)
    }

    // A state's place in a node's fragment.
    pub fn place(&self, n: usize, s: usize) -> Place
        requires { (n < (job_of self.now).nodes) × (s < size (job_of self.now)) }
        ensures { result ≡ place_of (job_of self.now) n s }
    {
        // through a slice: the borrow checker does not index an array whose elements hold a vector
        let fragments = &self.space.fragments[..];
        fragments[n].places[s]
    }

    // The states of node n's fragment, ascending.
    pub fn fragment(&self, n: usize) -> &[u8]
        requires { n < (job_of self.now).nodes }
        ensures { result.now ≡ fragment_of (job_of self.now) n }
    {
        let fragments = &self.space.fragments[..];
        fragments[n].states.as_slice()
    }

    // The k-th subformula.
    pub fn subformula(&self, k: usize) -> Subformula
        requires { k < subformula_count (job_of self.now) }
        ensures { (result ≡ subformula_of (job_of self.now).formula k) × Operands k result }
    {
        self.space.lines.formula.as_slice()[k]
    }
}
