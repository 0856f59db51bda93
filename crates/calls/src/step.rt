// The call step.
ghost use Rattle.std.specs.Prelude.{◌≡◌};
ghost use Rattle.cells.specs.Calls.{Call, answer, after};
ghost use Rattle.calls.specs.Told.{step_told};

use decoding::read::read_image;
use image::space::Space;
use job::refusal::Refusal;
use questions::ask_step;
use stepping::node::step_node;

// The step of one node: its empty cells take the values that the rules give them. Answers how many are filled.
pub fn step(text: &[u8], table: &mut [u8], node: usize) -> Result<usize, Refusal>
    ensures told { step_told result ≡ answer (Call.step node) text.now table.old }
    ensures left { table.new ≡ after (Call.step node) text.now table.old }
{
    let mut space = Space::new();
    let m = read_image(text, &mut space)?;
    ask_step(&m, table, node)?;
    Ok(step_node(&m, table, node))
}
