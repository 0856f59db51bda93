// The calls on a text alone: read and line.
ghost use Rattle.std.specs.Prelude.{◌≡◌, [], ◌∷◌};
ghost use Rattle.job.specs.Answer.{numbers};
ghost use Rattle.job.specs.Read.{read_answer, line_start, line_length};
ghost use Rattle.numbers.specs.Stored.{stored};

use calls::read::read;
use layout::lines::{Part, line_part};
use numbers::store::{put_all, store_few};

// Questions 1 to 8. Own numbers: states, edges, subformulas, nodes.
#[tactic(auto, using(crate::proofs::AnswerLaws::stored_told), unfolding(job::specs::Read::read_told))]
#[unsafe(no_mangle)]
pub extern "C" fn selahmur_read(text: &[u8], out: &mut [usize])
    ensures { out.new ≡ stored out.old (numbers (read_answer text.now)) }
{
    store_few(out, read(text));
}

// Where line `number` of the text stands, counted from 1 and without byte 10: its first byte and how many there are, 0 and 0 where there is
// no such line. These two are the whole answer.
#[unsafe(no_mangle)]
pub extern "C" fn selahmur_line(text: &[u8], number: usize, out: &mut [usize])
    ensures { out.new
        ≡ stored out.old (line_start text.now number ∷ line_length text.now number ∷ []) }
{
    let part = line_part(text, number).unwrap_or(Part { start: 0, size: 0 });
    put_all(out, 0, &[part.start, part.size]);
}
