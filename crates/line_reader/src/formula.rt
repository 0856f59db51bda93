// The subformula lines: question 8.
ghost use Rattle.job.specs.Leaves.{Fits};
ghost use Rattle.line_reader.specs.LinesRead.{lines_of_subformulas, LinesRead};

use crate::stopped::Stopped;
use arrayvec::ArrayVec;
use job::reading::Header;
use job::refusal::Refusal;
use job::subformula::{Subformula, parse};
use layout::lines::right_after;
use text::fields::read_line;

// How many subformula lines are right before the first that is not, of all or of those before the first that is malformed.
#[inline(always)]
pub fn read_formulas(
    text: &[u8],
    h: Header,
    formula: &mut ArrayVec<Subformula, 32>,
) -> Result<usize, Stopped<usize>>
    requires { Fits text.now h }
    ensures { LinesRead (lines_of_subformulas text.now h) formula.new.items result }
{
    formula.clear();
    let lines = h.states + h.edges;
    let start = 21 + 11 * lines;
    let number = 2 + lines;
    let mut right = 0;
    for k in 0..h.subformulas {
        let Some(numbers) = read_line::<3>(text, start + 16 * k) else {
            let why = Refusal::MalformedLine(number + k);
            return Err(Stopped { why, kept: right });
        };
        let [kind, a, b] = numbers;
        let parsed = parse(k, kind, a, b);
        right = right_after(right, k, parsed.is_some());
        // question 8 refuses a line that says no subformula
        formula.push(parsed.unwrap_or(Subformula::Atom(0)));
    }
    Ok(right)
}
