// Where a state stands while a set spreads.
ghost use Rattle.std.specs.Prelude.{◌≡◌, ◌<◌, ℕ, List, set, get_or, eqb};
ghost use Rattle.spread.specs.Spread.{numbers};

// It stays out, may join, or is in the set. A byte, since a set has 256 of them.
#[derive(Clone, Copy, Debug, PartialEq, Eq)]
#[repr(u8)]
pub enum Mark {
    Out,
    May,
    In,
}

// An array with a mark for each state. A clause sees their numbers: 2 in the set, 1 where the state may join, anything else where it stays out.
pub trait Marks {
    ghost numbers: { Self → List ℕ };

    fn may_join(&self, s: usize) -> bool
        requires { s < 256 }
        ensures { result ≡ eqb (get_or (numbers self.now) s 0) 1 };

    fn is_in(&self, s: usize) -> bool
        requires { s < 256 }
        ensures { result ≡ eqb (get_or (numbers self.now) s 0) 2 };

    // Puts the state in the set: every other mark stays.
    fn put_in(&mut self, s: usize)
        requires { s < 256 }
        ensures { numbers self.new ≡ set (numbers self.old) s 2 };
}

impl Marks for [Mark; 256] {
    ghost numbers = { numbers };

    #[inline(always)]
    fn may_join(&self, s: usize) -> bool {
        self[s] == Mark::May
    }

    #[inline(always)]
    fn is_in(&self, s: usize) -> bool {
        self[s] == Mark::In
    }

    #[inline(always)]
    fn put_in(&mut self, s: usize) {
        self[s] = Mark::In;
    }
}

// Bytes are the numbers themselves.
impl Marks for [u8; 256] {
    ghost numbers = { λ bytes. bytes };

    #[inline(always)]
    fn may_join(&self, s: usize) -> bool {
        self[s] == 1
    }

    #[inline(always)]
    fn is_in(&self, s: usize) -> bool {
        self[s] == 2
    }

    #[inline(always)]
    fn put_in(&mut self, s: usize) {
        self[s] = 2;
    }
}
