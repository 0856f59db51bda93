// A table without a filled cell.
ghost use Rattle.std.specs.Prelude.{◌≡◌};
ghost use Rattle.cells.specs.Table.{fresh_table};

// Makes every cell empty.
#[tactic(auto, unfolding(cells::specs::Table::fresh_table))]
pub fn clear(table: &mut [u8])
    ensures { table.new ≡ fresh_table table.old }
{
    table.fill(2);
}
