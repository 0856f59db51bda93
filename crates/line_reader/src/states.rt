// The state lines: question 5.
ghost use Rattle.std.specs.Prelude.{◌≡◌, ◌&&◌, ltb, leb};
ghost use Rattle.job.specs.Leaves.{Fits};
ghost use Rattle.line_reader.specs.LinesRead.{lines_of_states, LinesRead};

use crate::stopped::Stopped;
use arrayvec::ArrayVec;
use image::job_lines::State;
use job::reading::Header;
use job::refusal::Refusal;
use layout::lines::right_after;
use text::fields::read_line;

fn is_state(nodes: usize, owner: usize, label: usize) -> bool
    ensures { result ≡ (ltb owner nodes && leb label 65535) }
{
    owner < nodes && label <= 65535
}

// How many state lines are right before the first that is not, of all or of those before the first that is malformed.
#[inline(always)]
pub fn read_states(
    text: &[u8],
    h: Header,
    states: &mut ArrayVec<State, 256>,
) -> Result<usize, Stopped<usize>>
    requires { Fits text.now h }
    ensures { LinesRead (lines_of_states text.now h) states.new.items result }
{
    states.clear();
    let mut right = 0;
    for s in 0..h.states {
        let Some(numbers) = read_line::<2>(text, 21 + 11 * s) else {
            let why = Refusal::MalformedLine(2 + s);
            return Err(Stopped { why, kept: right });
        };
        let [owner, label] = numbers;
        // question 5 refuses a number that is too large for its field
        states.push(State {
            owner: (owner % 256) as u8,
            label: (label % 65536) as u16,
        });
        right = right_after(right, s, is_state(h.nodes, owner, label));
    }
    Ok(right)
}
