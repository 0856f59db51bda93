// Opening states: questions 25 and 26, put to marks, and what is to be answered of a complete table at the states that they mark. No call takes marks yet.
#![tactic(auto)]

ghost use Rattle.std.specs.Prelude.{◌<◌, ◌≡◌, [], ◌∷◌, cond, is_none, unwrap_or, IfSome, IfErr, length, get_or, ltb};
ghost use Rattle.law.specs.Bounded.{any};
ghost use Rattle.job.specs.Job.{size};
ghost use Rattle.job.specs.Refused.{no_of, line_of_refusal};
ghost use Rattle.job.specs.Question.{no_number};
ghost use Rattle.cells.proofs.Rounds.{Complete};
ghost use Rattle.cells.specs.Opening.{are_marks, yes, says_no, lowest_no};
ghost use Rattle.cells.specs.Questions.{marks_right, some_marked};
ghost use Rattle.image.specs.Denoted.{job_of};
ghost use Rattle.table.specs.Lent.{Lent};

use image::image::Image;
use job::refusal::Refusal;
use table::cell::owner_cell;

// Whether some mark is above v.
fn some_above(marks: &[u8], v: u8) -> bool
    ensures { result ≡ any (λ s. ltb v (get_or marks.now s 0)) (length marks.now) }
{
    marks.iter().any(|&mark| v < mark)
}

// Question 25: whether there is a byte for each state, 0 or 1.
#[tactic(auto, using(crate::proofs::MarksLaws::same_length, crate::proofs::MarksLaws::other_length))]
fn are_marks(m: &Image, marks: &[u8]) -> bool
    ensures { result ≡ are_marks (job_of m.now) marks.now }
{
    marks.len() == m.states() && !some_above(marks, 1)
}

// Questions 25 and 26. Behind 25 a mark above 0 is 1.
#[tactic(auto, using(crate::proofs::MarksLaws::no_marks, crate::proofs::MarksLaws::none_marked, crate::proofs::MarksLaws::some_marked_lem))]
pub fn ask_marks(m: &Image, marks: &[u8]) -> Result<(), Refusal>
    ensures first_no { no_of result ≡ no_number (marks_right (job_of m.now) marks.now ∷ some_marked marks.now ∷ []) }
    ensures no_line { IfErr result (λ why. line_of_refusal why ≡ 0) }
{
    if !are_marks(m, marks) {
        return Err(Refusal::Marks);
    }
    if !some_above(marks, 0) {
        return Err(Refusal::NoneMarked);
    }
    Ok(())
}

// Whether s is an opening state at which the owner's cell of the whole formula is 0.
#[tactic(auto, unfolding(cells::specs::Opening::says_no, cells::specs::Opening::opens, cells::specs::Opening::whole_cell))]
fn says_no(m: &Image, table: &[u8], marks: &[u8], s: usize) -> bool
    requires lent { Lent m.now table.now }
    requires marks_len { (length marks.now ≡ size (job_of m.now)) × (s < size (job_of m.now)) }
    ensures { result ≡ says_no (job_of m.now) marks.now table.now s }
{
    marks[s] == 1 && owner_cell(m, table, s, m.subformulas() - 1) == 0
}

// What is answered at the opening states: the lowest that says no, and none for yes. Where the cells are all filled, it is yes exactly where no
// state says no.
pub fn verdict_at(m: &Image, table: &[u8], marks: &[u8]) -> Option<usize>
    requires lent { Lent m.now table.now }
    requires marks_len { length marks.now ≡ size (job_of m.now) }
    ensures within { IfSome result (λ s. s < size (job_of m.now)) }
    ensures lowest_value { unwrap_or result (size (job_of m.now)) ≡ lowest_no (job_of m.now) marks.now table.now }
    ensures yes_value { Complete (job_of m.now) table.now → cond (is_none result) 1 0 ≡ yes (job_of m.now) marks.now table.now }
{
    (0..m.states()).find(|&s| says_no(m, table, marks, s))
}
