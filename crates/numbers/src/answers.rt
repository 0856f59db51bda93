// All numbers of a call's answer, from its result.
ghost use Rattle.std.specs.Prelude.{◌≡◌, ◌<◌, ◌++◌, ℕ, List};
ghost use Rattle.std.proofs.Common.{lit<};
ghost use Rattle.job.specs.Answer.{numbers};
ghost use Rattle.job.specs.Read.{header_numbers};
ghost use Rattle.job.specs.Refused.{told};
ghost use Rattle.calls.specs.Told.{none, one, message_numbers, closing_numbers, outcome_numbers};

use calls::offer::Message;
use closing::Closing;
use job::reading::Header;
use job::refusal::Refusal;
use rounds::finish::Outcome;

// What a call answers of its own where it is accepted, as so many numbers. A trait of its own and no `Into<[usize; N]>`, whose contract says nothing of
// which numbers these are.
pub trait Own<const N: usize> {
    ghost own: { Self → List ℕ };

    fn own_numbers(self) -> [usize; N]
        ensures { result ≡ own self };
}

impl Own<0> for () {
    ghost own = { none };

    fn own_numbers(self) -> [usize; 0] {
        []
    }
}

impl Own<1> for usize {
    ghost own = { one };

    fn own_numbers(self) -> [usize; 1] {
        [self]
    }
}

impl Own<1> for u8 {
    ghost own = { one };

    fn own_numbers(self) -> [usize; 1] {
        [usize::from(self)]
    }
}

impl Own<4> for Header {
    ghost own = { header_numbers };

    fn own_numbers(self) -> [usize; 4] {
        [self.states, self.edges, self.subformulas, self.nodes]
    }
}

impl Own<3> for Message {
    ghost own = { message_numbers };

    fn own_numbers(self) -> [usize; 3] {
        [self.state, self.subformula, usize::from(self.value)]
    }
}

impl Own<2> for Closing {
    ghost own = { closing_numbers };

    fn own_numbers(self) -> [usize; 2] {
        [self.subformula, self.filled]
    }
}

impl Own<3> for Outcome {
    ghost own = { outcome_numbers };

    fn own_numbers(self) -> [usize; 3] {
        [usize::from(self.verdict), self.rounds, self.cells]
    }
}

// An answer with few numbers of its own: that an array of them can be lent as a slice is said here, so that no caller has to say it.
pub trait Few<const N: usize>: Own<N> {
    ghost few: { N < 65536 };
}

impl Few<0> for () {
    ghost few = { lit< tt };
}

impl Few<1> for usize {
    ghost few = { lit< tt };
}

impl Few<1> for u8 {
    ghost few = { lit< tt };
}

impl Few<4> for Header {
    ghost few = { lit< tt };
}

impl Few<3> for Message {
    ghost few = { lit< tt };
}

impl Few<2> for Closing {
    ghost few = { lit< tt };
}

impl Few<3> for Outcome {
    ghost few = { lit< tt };
}

// Number and line, and the call's own numbers.
#[tactic(auto, unfolding(job::specs::Answer::numbers))]
pub fn numbers_of<T: Own<N>, const N: usize>(answer: Result<T, Refusal>) -> ([usize; 2], [usize; N])
    ensures { result.0 ++ result.1 ≡ numbers (told T.own N answer) }
{
    match answer {
        Ok(own) => ([0, 0], own.own_numbers()),
        Err(why) => (why.numbers(), [0; N]),
    }
}
