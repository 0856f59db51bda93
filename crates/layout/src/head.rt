// Document 01's questions 1 to 3: line 1 and the length of a text.
ghost use Rattle.std.specs.Prelude.{◌≡◌};
ghost use Rattle.job.specs.Questions.{in_ranges};
ghost use Rattle.job.specs.Read.{read_told, head_answer};

use job::reading::Header;
use job::refusal::Refusal;
use text::fields::read_line;

#[tactic(auto, unfolding(job::specs::Questions::in_ranges, job::specs::Questions::within))]
fn are_in_ranges(h: Header) -> bool
    ensures { result ≡ in_ranges h.states h.edges h.subformulas h.nodes }
{
    (1..=256).contains(&h.states)
        && (1..=2048).contains(&h.edges)
        && (1..=32).contains(&h.subformulas)
        && (1..=8).contains(&h.nodes)
}

// Questions 1 to 3, and the numbers of line 1.
pub fn head(text: &[u8]) -> Result<Header, Refusal>
    ensures { read_told result ≡ head_answer text.now }
{
    if text.len() < 21 {
        return Err(Refusal::LineOne);
    }
    let [states, edges, subformulas, nodes] = read_line::<4>(text, 0).ok_or(Refusal::LineOne)?;
    let h = Header {
        states,
        edges,
        subformulas,
        nodes,
    };
    if !are_in_ranges(h) {
        return Err(Refusal::Ranges);
    }
    if text.len() != 21 + 11 * states + 11 * edges + 16 * subformulas {
        return Err(Refusal::TextLength);
    }
    Ok(h)
}
