// A set of states spreads against the edges of one node.
ghost use Rattle.std.specs.Prelude.{◌≡◌, ◌&&◌, Bool, List, ℕ, ◌<◌, eqb, get_or, length, replicate};
ghost use Rattle.job.specs.Job.{size};
ghost use Rattle.job.specs.Rule.{quantifier};
ghost use Rattle.image.specs.Denoted.{job_of};
ghost use Rattle.spread.specs.Spread.{Joinable, Spread};
ghost use Rattle.spread.specs.Underway.{enough, outs, none_told, told_too, Spreading, Taken};

use crate::mark::Marks;
use crate::waiting::Waiting;
use image::image::Image;

// Whether state s joins by its mark: all its edges are told, or some, of the number that is given.
fn joins<M: Marks>(m: &Image, all: bool, s: usize, marks: &M, told: u16) -> bool
    requires { s < size (job_of m.now) }
    ensures { result ≡ (eqb (get_or (M.numbers marks.now) s 0) 1 && enough all (outs (job_of m.now).structure s) told) }
{
    if !marks.may_join(s) {
        return false;
    }
    if all {
        return usize::from(told) == m.first_edge(s + 1) - m.first_edge(s);
    }
    0 < told
}

// What a set that spreads keeps beside its marks: how many told edges leave each state, and what waits.
// Each state of a fragment waits at most once, so there is room for all. The arrays are as long as a job may be: there is no heap.
#[derive(Drop)]
struct Worklist<'a> {
    counts: &'a mut [u16; 256],
    waiting: Waiting<'a>,
}

impl<'a> Worklist<'a> {
    // The states of node n's fragment that are in the set wait before any is told: a state that may join has an edge out to wait for.
    #[inline(always)]
    fn start<M: Marks>(
        m: &Image,
        n: usize,
        marks: &M,
        counts: &'a mut [u16; 256],
        states: &'a mut [u8; 256],
    ) -> Self
        requires n_bound { n < (job_of m.now).nodes }
        requires long { length (M.numbers marks.now) ≡ 256 }
        requires counts { counts.old ≡ replicate 256 0 }
        ensures { (all : Bool) → Spreading (job_of m.now) n all (M.numbers marks.now) none_told (M.numbers marks.now) result }
    {
        let mut waiting = Waiting::new(states);
        for &state in m.fragment(n) {
            if marks.is_in(usize::from(state)) {
                waiting.push(state);
            }
        }
        Worklist { counts, waiting }
    }

    // Tells the predecessors of state t that it is in the set: walks node n's edges into it, from the last to the first, counts each at
    // its source, and marks a source that has enough, which then waits.
    #[inline(always)]
    fn tell<M: Marks>(&mut self, m: &Image, n: usize, all: bool, t: usize, marks: &mut M)
        requires n_bound { n < (job_of m.now).nodes }
        requires taken { (before : List ℕ) × (told : ℕ → Bool) × Taken (job_of m.now) n all before told t (M.numbers marks.old) self.old }
        ensures { (before : List ℕ) (told : ℕ → Bool)
            → Taken (job_of m.now) n all before told t (M.numbers marks.old) self.old
            → Spreading (job_of m.now) n all before (told_too told t) (M.numbers marks.new) self.new }
    {
        let mut next = m.last_into(n, t);
        // a chain and no list: each edge tells the one before it
        while let Some(e) = next {
            let s = m.source(e);
            let told = self.counts[s] + 1;
            self.counts[s] = told;
            if joins(m, all, s, marks, told) {
                marks.put_in(s);
                self.waiting.push(s as u8);
            }
            next = m.next_into(e);
        }
    }
}

// Puts in the states of the least set in which each state that is in is, and each that may join of which all successors
// are, or some. Each state of node n's fragment waits at most once, so each of its edges is walked at most once.
pub fn spread<M: Marks>(m: &Image, n: usize, all: bool, marks: &mut M)
    requires n_bound { n < (job_of m.now).nodes }
    requires joinable { Joinable (job_of m.now) n (M.numbers marks.old) }
    ensures { Spread (job_of m.now).structure (quantifier all) (M.numbers marks.old) (M.numbers marks.new) }
{
    let mut counts = [0; 256];
    let mut states = [0; 256];
    let mut list = Worklist::start(m, n, marks, &mut counts, &mut states);
    while let Some(t) = list.waiting.pop() {
        list.tell(m, n, all, usize::from(t), marks);
    }
}
