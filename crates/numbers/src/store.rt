// Storing an answer's numbers into a lent array, whatever its length.
ghost use Rattle.std.specs.Prelude.{◌≡◌, ◌<◌, set};
ghost use Rattle.job.specs.Answer.{numbers};
ghost use Rattle.job.specs.Refused.{told};
ghost use Rattle.numbers.specs.Stored.{stored, stored_from};

use crate::answers::{Few, Own, numbers_of};
use job::refusal::Refusal;

// Stores one number, if there is room for it.
fn put(out: &mut [usize], at: usize, n: usize)
    ensures { out.new ≡ set out.old at n }
{
    if at < out.len() {
        out[at] = n;
    }
}

// Stores these numbers from place `at` on.
pub fn put_all(out: &mut [usize], at: usize, numbers: &[usize])
    ensures { out.new ≡ stored_from at out.old numbers.now }
{
    if out.len() <= at {
        return;
    }
    for (i, &n) in numbers.iter().enumerate() {
        put(out, at + i, n);
    }
}

// Stores an answer's numbers from the front on. It asks of N what any array of numbers does, that its bytes can be counted.
pub fn store<T: Own<N>, const N: usize>(out: &mut [usize], answer: Result<T, Refusal>)
    requires { N < 65536 }
    ensures { out.new ≡ stored out.old (numbers (told T.own N answer)) }
{
    let (front, own) = numbers_of(answer);
    put_all(out, 0, &front);
    put_all(out, 2, &own);
}

// The same of an answer with few numbers, as every call's is: nothing is asked of the caller.
#[inline(always)]
pub fn store_few<T: Few<N>, const N: usize>(out: &mut [usize], answer: Result<T, Refusal>)
    ensures { out.new ≡ stored out.old (numbers (told T.own N answer)) }
{
    store(out, answer);
}
