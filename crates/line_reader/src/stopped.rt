// What a loop over the lines tells where one is malformed.
ghost use Rattle.std.specs.Prelude.{◌≡◌};

use job::refusal::Refusal;

// The first malformed line, as it is refused, and what is kept of the lines before it.
#[derive(Drop)]
pub struct Stopped<K> {
    pub why: Refusal,
    pub kept: K,
}

// Question 4 is answered by the line alone.
impl<K: Drop> From<Stopped<K>> for Refusal {
    ghost from_gives = { λ stopped why. why ≡ stopped.why };

    fn from(stopped: Stopped<K>) -> Refusal {
        stopped.why
    }
}
