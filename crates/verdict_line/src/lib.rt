// What the program verdict prints of a text: finish's answer on a fresh table, as one line of five numbers.
#![tactic(auto)]

ghost use Rattle.std.specs.Prelude.{◌≡◌};
ghost use Rattle.job.specs.Answer.{numbers};
ghost use Rattle.text.specs.Decimal.{line, Short};
ghost use Rattle.calls.specs.Told.{finish_told};
ghost use Rattle.verdict_line.specs.VerdictLine.{verdict_line};

use from_fresh::{finish_fresh, table_size};
use job::refusal::Refusal;
use numbers::answers::numbers_of;
use rounds::finish::Outcome;
use text::decimal::write_line;

// The line of all five numbers.
fn line_of(done: Result<Outcome, Refusal>) -> [u8; 26]
    requires { Short (numbers (finish_told done)) }
    ensures { result ≡ line (numbers (finish_told done)) }
{
    let (front, own) = numbers_of::<Outcome, 3>(done);
    let [number, at] = front;
    let [verdict, rounds, cells] = own;
    let mut out = [b'\n'; 26];
    write_line(&mut out, 0, &[number, at, verdict, rounds, cells]);
    out
}

// The line for a text.
pub fn verdict_line(text: &[u8]) -> [u8; 26]
    ensures { result ≡ verdict_line text.now }
{
    let size = table_size(text);
    let mut cells = [2u8; 65536];
    line_of(finish_fresh(text, &mut cells, size))
}
