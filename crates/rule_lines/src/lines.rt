// The lines of a rule, in the order in which they are kept. In a contract they are the numbers of each.
ghost use Rattle.std.specs.Prelude.{◌≡◌, ℕ, List, [], ◌≤◌, map, length};
ghost use Rattle.job.specs.Formula.{fields};
ghost use Rattle.rule_text.specs.Kept as kept;
ghost use Rattle.rule_lines.specs.Held.{Finds, KeptAs};

use arrayvec::ArrayVec;
use job::subformula::Subformula;
use std::marker::Model;

#[derive(Drop)]
pub struct Lines {
    kept: ArrayVec<Subformula, 33>,
}

impl Model for Lines {
    ghost Value = { List (List ℕ) };

    ghost view = { λ l. map fields l.kept.items };
}

impl Lines {
    pub fn new() -> Self
        ensures { result ≡ [] }
    {
        Lines {
            kept: ArrayVec::new(),
        }
    }

    pub fn count(&self) -> usize
        ensures { (result ≡ length self.now) × (result ≤ 33) }
    {
        self.kept.len()
    }

    pub fn as_slice(&self) -> &[Subformula]
        ensures { map fields result.now ≡ self.now }
    {
        self.kept.as_slice()
    }

    // The number of the first line that is this one.
    fn find(&self, f: Subformula) -> Option<usize>
        ensures { Finds (fields f) self.now result }
    {
        self.as_slice().iter().position(|g| *g == f)
    }

    // Keeps a line, if it is new and there is room, and returns its number.
    pub fn keep(&mut self, f: Subformula) -> usize
        ensures { KeptAs (kept.keep (fields f) self.old) result self.new }
    {
        if let Some(k) = self.find(f) {
            return k;
        }
        let number = self.kept.len();
        if number < 33 {
            self.kept.push(f);
        }
        number
    }
}
