// What steps and copying still have to look at, so that they can leave out the rest.
#![tactic(auto)]

ghost use Rattle.std.specs.Prelude.{◌≡◌, ◌<◌, ◌≤◌, true, false, get_or, replicate};
ghost use Rattle.cells.specs.Rest.{column_flag, is_stale, FlagIs, FlagsAre};

use std::mem;

// The columns, cells of one node and one subformula, of which a cell was filled since their node was last stepped, 32 for each node, and the
// subformulas of which a cell was filled since the last copying. (Tried as rows, `[[bool; 32]; 8]`: the check does not tell how long a row is, so the
// type would take an invariant, and a flat view for `FlagIs` and `FlagsAre`, to save three `n * 32 + k`.) What a method asks of n and k is that they are in.
#[derive(Drop)]
pub struct Pending {
    pub stale: [bool; 256],
    pub news: [bool; 32],
}

impl Pending {
    // Where nothing is known of any column yet: all of them.
    pub fn all() -> Self
        ensures stale { result.stale ≡ replicate 256 true }
        ensures news { result.news ≡ replicate 32 true }
    {
        Pending {
            stale: [true; 256],
            news: [true; 32],
        }
    }

    #[tactic(auto, unfolding(cells::specs::Rest::is_stale))]
    pub fn is_stale(&self, n: usize, k: usize) -> bool
        requires { (n < 8) × (k < 32) }
        ensures { result ≡ is_stale self.now.stale n k }
    {
        let column = n * 32 + k;
        self.stale[column]
    }

    // Cells of column k of node n were filled.
    pub fn mark_stale(&mut self, n: usize, k: usize)
        requires { (n < 8) × (k < 32) }
        ensures stale { FlagIs (column_flag n k) true self.old.stale self.new.stale }
        ensures news { self.new.news ≡ self.old.news }
    {
        self.stale[n * 32 + k] = true;
    }

    // Every node's column of subformula k is marked: it was closed. (By `chunks_mut` over the nodes it was not proved: behind it no flag is known.)
    pub fn mark_subformula(&mut self, nodes: usize, k: usize)
        requires { (nodes ≤ 8) × (k < 32) }
        ensures stale { FlagsAre (λ n. column_flag n k) true nodes self.old.stale self.new.stale }
        ensures news { self.new.news ≡ self.old.news }
    {
        for n in 0..nodes {
            self.mark_stale(n, k);
        }
    }

    // Node n is stepped: nothing of it is stale any more.
    pub fn clear_node(&mut self, n: usize)
        requires { n < 8 }
        ensures stale { FlagsAre (column_flag n) false 32 self.old.stale self.new.stale }
        ensures news { self.new.news ≡ self.old.news }
    {
        self.stale[n * 32..n * 32 + 32].fill(false);
    }

    // Cells of subformula k were filled.
    pub fn tell_news(&mut self, k: usize)
        requires { k < 32 }
        ensures stale { self.new.stale ≡ self.old.stale }
        ensures news { FlagIs k true self.old.news self.new.news }
    {
        self.news[k] = true;
    }

    // Whether subformula k has news, which are thereby told.
    pub fn take_news(&mut self, k: usize) -> bool
        requires { k < 32 }
        ensures told { result ≡ get_or self.old.news k false }
        ensures stale { self.new.stale ≡ self.old.stale }
        ensures news { FlagIs k false self.old.news self.new.news }
    {
        mem::take(&mut self.news[k])
    }
}
