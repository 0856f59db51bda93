// The edge lines: questions 6 and 7, in one pass.
ghost use Rattle.job.specs.Leaves.{Fits};
ghost use Rattle.line_reader.specs.LinesRead.{lines_of_edges, LinesRead};

use crate::stopped::Stopped;
use arrayvec::ArrayVec;
use edge_pass::Kept;
use image::job_lines::Edge;
use job::reading::Header;
use job::refusal::Refusal;
use text::fields::read_line;

// What the pass keeps after the last edge line, or after the last before the first that is malformed.
#[inline(always)]
pub fn read_edges(
    text: &[u8],
    h: Header,
    edges: &mut ArrayVec<Edge, 2048>,
) -> Result<Kept, Stopped<Kept>>
    requires { Fits text.now h }
    ensures { LinesRead (lines_of_edges text.now h) edges.new.items result }
{
    edges.clear();
    let mut kept = Kept::start(h.states);
    for e in 0..h.edges {
        let line = h.states + e;
        let Some(numbers) = read_line::<2>(text, 21 + 11 * line) else {
            let why = Refusal::MalformedLine(2 + line);
            return Err(Stopped { why, kept });
        };
        let [source, target] = numbers;
        // question 6 refuses a number that is too large for its field
        edges.push(Edge {
            source: (source % 256) as u8,
            target: (target % 256) as u8,
        });
        kept.after(source, target);
    }
    Ok(kept)
}
