// The own questions of the calls on a table, behind 1 to 8: for each call one function that puts them in order, and is refused by the first that is
// answered no. Fresh puts its one itself.
#![tactic(auto)]

ghost use Rattle.std.specs.Prelude.{◌<◌, ◌≡◌, ◌&&◌, ◌||◌, [], ◌∷◌, ltb, eqb};
ghost use Rattle.job.specs.Job.{size, subformula_count};
ghost use Rattle.job.specs.Question.{no_number};
ghost use Rattle.job.specs.Refused.{no_of};
ghost use Rattle.cells.specs.Table.{is_empty};
ghost use Rattle.cells.specs.Questions.{numbers_below, temporal_named};
ghost use Rattle.cells.specs.Calls.{Call, own_questions, node_read};
ghost use Rattle.image.specs.Denoted.{job_of};
ghost use Rattle.questions.specs.Asked.{NoLine};

use closing::smallest_open;
use exchange::settled::settled;
use image::image::Image;
use image::place::Place;
use job::refusal::Refusal;
use job::rule::{is_temporal, rule_of};
use right_cells::cells_right;
use table::cell::{cell, owner_cell};

// Finish, and before their other questions all calls but fresh: 9 and 10.
#[tactic(auto, using(crate::proofs::NoLaws::table_number, crate::proofs::NoLaws::length_is))]
pub fn ask_table(m: &Image, table: &[u8]) -> Result<(), Refusal>
    ensures first_no { no_of result ≡ no_number (own_questions Call.finish (job_of m.now) table.now) }
    ensures no_line { NoLine result }
{
    if table.len() != m.nodes() * m.states() * m.subformulas() {
        return Err(Refusal::TableLength);
    }
    if !cells_right(m, table) {
        return Err(Refusal::Cells);
    }
    Ok(())
}

#[tactic(auto, using(crate::proofs::NoLaws::table_number, crate::proofs::NoLaws::step_asked, job::proofs::RefusedLaws::numbered))]
pub fn ask_step(m: &Image, table: &[u8], node: usize) -> Result<(), Refusal>
    ensures first_no { no_of result ≡ no_number (own_questions (Call.step node) (job_of m.now) table.now) }
    ensures no_line { NoLine result }
{
    ask_table(m, table)?;
    if m.nodes() <= node {
        return Err(Refusal::Node);
    }
    Ok(())
}

// Question 12: whether there are such a state and such a subformula.
fn are_in(m: &Image, s: usize, k: usize) -> bool
    ensures { result ≡ (ltb s (size (job_of m.now)) && ltb k (subformula_count (job_of m.now))) }
{
    s < m.states() && k < m.subformulas()
}

// Questions 12 and 13: what a message names.
#[tactic(auto, using(crate::proofs::NoLaws::named_number), unfolding(cells::specs::Close::is_temporal))]
fn ask_named(m: &Image, s: usize, k: usize) -> Result<(), Refusal>
    ensures first_no { no_of result ≡ no_number (numbers_below (job_of m.now) s k ∷ temporal_named (job_of m.now) k ∷ []) }
    ensures no_line { NoLine result }
{
    if !are_in(m, s, k) {
        return Err(Refusal::StateOrSubformula);
    }
    if !is_temporal(rule_of(m.subformula(k))) {
        return Err(Refusal::NotTemporal);
    }
    Ok(())
}

#[tactic(auto, using(crate::proofs::NoLaws::offer_laws), unfolding(cells::specs::Table::is_empty))]
pub fn ask_offer(m: &Image, table: &[u8], s: usize, k: usize) -> Result<(), Refusal>
    ensures first_no { no_of result ≡ no_number (own_questions (Call.offer s k) (job_of m.now) table.now) }
    ensures no_line { NoLine result }
{
    ask_table(m, table)?;
    ask_named(m, s, k)?;
    if owner_cell(m, table, s, k) == 2 {
        return Err(Refusal::OwnerEmpty);
    }
    Ok(())
}

// Question 17: whether a cell is empty or that value.
#[tactic(auto, unfolding(cells::specs::Table::is_empty))]
fn agrees(cell: u8, v: u8) -> bool
    ensures { result ≡ (is_empty cell || eqb cell v) }
{
    cell == 2 || cell == v
}

#[tactic(auto, using(crate::proofs::NoLaws::accept_laws))]
pub fn ask_accept(
    m: &Image,
    table: &[u8],
    n: usize,
    s: usize,
    k: usize,
    v: u8,
) -> Result<(), Refusal>
    ensures first_no { no_of result ≡ no_number (own_questions (Call.accept n s k v) (job_of m.now) table.now) }
    ensures no_line { NoLine result }
{
    ask_step(m, table, n)?;
    ask_named(m, s, k)?;
    if 1 < v {
        return Err(Refusal::Value);
    }
    if m.place(n, s) != Place::Border {
        return Err(Refusal::NotBorder);
    }
    if !agrees(cell(m, table, n, s, k), v) {
        return Err(Refusal::OtherValue);
    }
    Ok(())
}

// Passed to look where no node is named: C's callers pass a number.
const NO_NODE: usize = 255;

// Question 11 of look: whether there is such a node, or none is named.
fn is_node(m: &Image, n: usize) -> bool
    ensures { result ≡ (ltb n (job_of m.now).nodes || eqb n 255) }
{
    n < m.nodes() || n == NO_NODE
}

// The node that is looked at: where none is named, the owner of the state.
#[tactic(auto, unfolding(cells::specs::Calls::node_read))]
pub fn node_read(m: &Image, n: usize, s: usize) -> usize
    requires { s < size (job_of m.now) }
    ensures { result ≡ node_read (job_of m.now) n s }
{
    if n == NO_NODE { m.owner(s) } else { n }
}

#[tactic(auto, using(crate::proofs::NoLaws::look_laws))]
pub fn ask_look(m: &Image, table: &[u8], n: usize, s: usize, k: usize) -> Result<(), Refusal>
    ensures first_no { no_of result ≡ no_number (own_questions (Call.look n s k) (job_of m.now) table.now) }
    ensures no_line { NoLine result }
{
    ask_table(m, table)?;
    if !is_node(m, n) {
        return Err(Refusal::Node);
    }
    if !are_in(m, s, k) {
        return Err(Refusal::StateOrSubformula);
    }
    if m.place(node_read(m, n, s), s) == Place::Outside {
        return Err(Refusal::OutsideFragment);
    }
    Ok(())
}

#[tactic(auto, using(crate::proofs::NoLaws::close_laws))]
pub fn ask_close(m: &Image, table: &[u8]) -> Result<(), Refusal>
    ensures first_no { no_of result ≡ no_number (own_questions Call.close (job_of m.now) table.now) }
    ensures no_line { NoLine result }
{
    ask_table(m, table)?;
    if !settled(m, table) {
        return Err(Refusal::NotSettled);
    }
    if smallest_open(m, table).is_none() {
        return Err(Refusal::NothingOpen);
    }
    Ok(())
}

// Page: those of step, and whether the buffer has room for a line for each state and one more.
#[tactic(auto, using(crate::proofs::NoLaws::step_asked, crate::proofs::NoLaws::page_asked, job::proofs::RefusedLaws::numbered))]
pub fn ask_page(m: &Image, table: &[u8], node: usize, room: usize) -> Result<(), Refusal>
    ensures first_no { no_of result ≡ no_number (own_questions (Call.page node room) (job_of m.now) table.now) }
    ensures no_line { NoLine result }
{
    ask_step(m, table, node)?;
    if room < 80 * (m.states() + 1) {
        return Err(Refusal::PageBuffer);
    }
    Ok(())
}
