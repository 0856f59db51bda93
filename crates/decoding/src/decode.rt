// What is derived from the lines of a text, laid part by part from them. That they say a job, `IsJob`, is asked by each function: in a ghost field it would be
// truncated, as the image's is, and each proof would begin by taking it apart.
ghost use Rattle.std.specs.Prelude.{ℕ, ◌≡◌, ◌+◌, ◌<◌, ◌≤◌, [], get_or};
ghost use Rattle.job.specs.Job.{size, owner};
ghost use Rattle.job.specs.Written.{IsJob, edge_count};
ghost use Rattle.image.specs.Lines.{lines_job};
ghost use Rattle.image.specs.Image.{IsImage, IsFragment, Runs, Chains, Ends, Fragments, edge_from, edge_to, first_edge, place_of};

use arrayvec::ArrayVec;
use image::job_lines::{Edge, JobLines};
use image::place::Place;
use image::space::{Fragment, Space};

// The first edge from `from` on that starts at state s or above.
fn run_start(lines: &JobLines, from: usize, s: usize) -> usize
    requires is_job { IsJob (lines_job lines.now) }
    requires from_bound { from ≤ first_edge (lines_job lines.now).structure s }
    ensures { (result ≡ first_edge (lines_job lines.now).structure s) × (result ≤ 2048) }
{
    let edges = lines.edges.as_slice();
    (from..edges.len())
        .find(|&e| s <= usize::from(edges[e].source))
        .unwrap_or(edges.len())
}

// Where each state's run of edges begins, and behind them where the last run ends. Edges ascend by source, so one pass over the
// edges finds them all: the search for a state's run goes on where the one before ended.
fn lay_first(lines: &JobLines, first: &mut [u16; 257])
    requires { IsJob (lines_job lines.now) }
    ensures { Runs (lines_job lines.now) (size (lines_job lines.now) + 1) first.new }
{
    let mut e = 0;
    for s in 0..lines.states.len() + 1 {
        e = run_start(lines, e, s);
        first[s] = e as u16;
    }
}

// The chain that an edge is in: its node, which is its source's owner, and the state that it ends at.
fn chain_of(lines: &JobLines, e: usize) -> (usize, usize)
    requires is_job { IsJob (lines_job lines.now) }
    requires e_bound { e < edge_count (lines_job lines.now) }
    ensures node { (result.0 ≡ owner (lines_job lines.now) (edge_from (lines_job lines.now).structure e)) × (result.0 < 8) }
    ensures state { (result.1 ≡ edge_to (lines_job lines.now).structure e) × (result.1 < 256) }
{
    let Edge { source, target } = lines.edges.as_slice()[e];
    let owner = lines.states.as_slice()[usize::from(source)].owner;
    (usize::from(owner), usize::from(target))
}

// The edges of each node into each state, as chains: the last of them, and for each edge the one before it.
fn lay_chains(lines: &JobLines, last: &mut [[u16; 256]; 8], next: &mut [u16; 2048])
    requires { IsJob (lines_job lines.now) }
    ensures { Chains (lines_job lines.now) (edge_count (lines_job lines.now)) last.new next.new }
{
    *last = [[0; 256]; 8];
    for e in 0..lines.edges.len() {
        let (node, state) = chain_of(lines, e);
        next[e] = last[node][state];
        last[node][state] = (e + 1) as u16;
    }
}

// A state's place in node n's fragment: the states that n owns have edges out there, the others that n's edges end at have none.
fn place_in(lines: &JobLines, n: usize, last: &[u16; 256], s: usize) -> Place
    requires is_job { IsJob (lines_job lines.now) }
    requires s_bound { s < size (lines_job lines.now) }
    requires ends { Ends (lines_job lines.now) n last.now }
    ensures { result ≡ place_of (lines_job lines.now) n s }
{
    if usize::from(lines.states.as_slice()[s].owner) == n {
        return Place::Inner;
    }
    if last[s] == 0 {
        return Place::Outside;
    }
    Place::Border
}

// Node n's fragment, laid where it stands: the places of all states in it, and the list of those that are in it. Two fields and no struct of both, since the
// length of an array is known where it is lent by itself.
fn lay_fragment(
    lines: &JobLines,
    n: usize,
    last: &[u16; 256],
    places: &mut [Place; 256],
    states: &mut ArrayVec<u8, 256>,
)
    requires is_job { IsJob (lines_job lines.now) }
    requires ends { Ends (lines_job lines.now) n last.now }
    ensures { IsFragment (lines_job lines.now) n (record { places = places.new; states = states.new }) }
{
    states.clear();
    for s in 0..lines.states.len() {
        let place = place_in(lines, n, last, s);
        places[s] = place;
        if place != Place::Outside {
            states.push(s as u8);
        }
    }
}

// The fragments of all eight nodes: one that the job does not have owns no state, so its fragment is empty.
fn lay_fragments(lines: &JobLines, last: &[[u16; 256]; 8], fragments: &mut [Fragment; 8])
    requires is_job { IsJob (lines_job lines.now) }
    requires ends { (n : ℕ) → n < 8 → Ends (lines_job lines.now) n (get_or last.now n []) }
    ensures { Fragments (lines_job lines.now) 8 fragments.new }
{
    for n in 0..8 {
        let Fragment { places, states } = &mut fragments[n];
        lay_fragment(lines, n, &last[n], places, states);
    }
}

// The image of the job that the lines say.
pub(crate) fn lay_derived(space: &mut Space)
    requires { IsJob (lines_job space.old.lines) }
    ensures image { IsImage space.new }
    ensures lines { space.new.lines ≡ space.old.lines }
{
    lay_first(&space.lines, &mut space.first);
    lay_chains(&space.lines, &mut space.last, &mut space.next);
    lay_fragments(&space.lines, &space.last, &mut space.fragments);
}
