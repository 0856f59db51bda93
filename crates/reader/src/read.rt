// Questions 1 to 8 in order.
ghost use Rattle.std.specs.Prelude.{◌≡◌};
ghost use Rattle.job.specs.Question.{answered};
ghost use Rattle.job.specs.Read.{header_numbers, read_told, read_answer};
ghost use Rattle.reader.specs.LineQuestions.{Askable, lines_asked};
ghost use Rattle.reader.specs.JobRead.{JobRead};

use edge_pass::Kept;
use image::job_lines::JobLines;
use job::reading::Header;
use job::refusal::Refusal;
use layout::head::head;
use line_reader::edges::read_edges;
use line_reader::formula::read_formulas;
use line_reader::states::read_states;

// Questions 5 to 8, where every line is well-formed: s state lines and k subformula lines are right before the first that is not, and the pass over the
// edge lines has kept this.
fn ask_lines(h: Header, s: usize, kept: Kept, k: usize) -> Result<Header, Refusal>
    requires { Askable h s kept k }
    ensures { read_told result ≡ answered (lines_asked h s kept k) 4 (header_numbers h) }
{
    if s != h.states {
        return Err(Refusal::StateLine(2 + s));
    }
    let order = kept.order;
    if order.right != order.lines {
        return Err(Refusal::EdgeLine(2 + order.states + order.right));
    }
    if let Some(terminal) = kept.terminal_state() {
        return Err(Refusal::NoEdgeOut(2 + terminal));
    }
    if k != h.subformulas {
        return Err(Refusal::SubformulaLine(2 + h.states + h.edges + k));
    }
    Ok(h)
}

// The reader's answer; where it accepts, what the text's lines say is in the lines that are lent.
// Inlined, so that `read`, which keeps no line, stores none.
#[inline(always)]
#[tactic(auto, using(job::proofs::LayoutLaws::head_fits), unfolding(job::specs::Read::read_told))]
pub fn read_lines(text: &[u8], lines: &mut JobLines) -> Result<Header, Refusal>
    ensures { JobRead text.now lines.new result }
{
    let h = head(text)?;
    lines.nodes = h.nodes;
    let states = read_states(text, h, &mut lines.states)?;
    let kept = read_edges(text, h, &mut lines.edges)?;
    let formulas = read_formulas(text, h, &mut lines.formula)?;
    ask_lines(h, states, kept, formulas)
}

// The reader's answer alone.
pub fn read(text: &[u8]) -> Result<Header, Refusal>
    ensures { read_told result ≡ read_answer text.now }
{
    let mut lines = JobLines::new();
    read_lines(text, &mut lines)
}
