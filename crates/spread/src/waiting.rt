// The states that wait while a set spreads.
ghost use Rattle.std.specs.Prelude.{◌≡◌, ℕ, ◌<◌, ◌≤◌, List, [], ◌∷◌, ◌++◌, length, take, IfSome, IfNone};

use std::marker::Model;

// The states in the set whose predecessors are still to be told. A clause sees the list, the last that came at its end.
// It borrows its array and is no ArrayVec: that keeps its count in memory, which takes 5 to 15 % more instructions of `verdict`.
// What takes it is inlined, so that the count stays in a register.
#[derive(Drop)]
pub(crate) struct Waiting<'a> {
    states: &'a mut [u8; 256],
    size: usize,
}

impl<'a> Model for Waiting<'a> {
    ghost Value = { List ℕ };

    ghost view = { λ w. take w.size w.states.now };

    ghost invariant = { λ w. (length w.states.now ≡ 256) × (w.size ≤ 256) };
}

impl<'a> Waiting<'a> {
    #[inline(always)]
    pub(crate) fn new(states: &'a mut [u8; 256]) -> Self
        ensures { result ≡ [] }
    {
        Waiting { states, size: 0 }
    }

    #[inline(always)]
    pub(crate) fn push(&mut self, state: u8)
        requires { length self.old < 256 }
        ensures { self.new ≡ self.old ++ state ∷ [] }
    {
        self.states[self.size] = state;
        self.size += 1;
    }

    // Takes the last that came.
    #[inline(always)]
    pub(crate) fn pop(&mut self) -> Option<u8>
        ensures some { IfSome result (λ t. self.old ≡ self.new ++ t ∷ []) }
        ensures none { IfNone result (self.old ≡ []) }
    {
        if self.size == 0 {
            return None;
        }
        self.size -= 1;
        Some(self.states[self.size])
    }
}
