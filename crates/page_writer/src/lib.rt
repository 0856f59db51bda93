// One node's table written as a page into a lent buffer: the heading, and a line for each state. Each function writes its part of the page at its
// place and leaves every other byte. A line takes 80 bytes, so that of state s begins at 80 * s + 80: five columns for the state, five for its owner,
// five for its label, then from 80 * s + 95 on two for each subformula, spaces up to column 79, and byte 10. The buffer and a place are passed, and no
// writer that counts on: what stands before and behind a part is said by its place.
#![tactic(auto)]

ghost use Rattle.std.specs.Prelude.{◌≡◌, [], ◌∷◌, ◌++◌, suc, ◌+◌, ◌-◌, ◌*◌, ◌<◌, ◌≤◌, length, replicate};
ghost use Rattle.std.proofs.lemmas.List.Edits.{sets};
ghost use Rattle.law.specs.Lists.{tab, flatten};
ghost use Rattle.job.specs.Job.{size};
ghost use Rattle.image.specs.Denoted.{job_of};
ghost use Rattle.table.specs.Lent.{IsRow, Ready};
ghost use Rattle.page_text.specs.Page.{two_columns, heading, cell_mark, row_cells, filled_line, page_line, page};

use image::image::Image;
use table::cell::cell_at;
use text::decimal::{digit_column, write_field};

// So many spaces. No twin of write_two: one byte again and again, and there two that differ.
fn write_spaces(out: &mut [u8], at: usize, count: usize)
    requires { at + count ≤ length out.old }
    ensures { out.new ≡ sets out.old at (replicate count 32) }
{
    out[at..at + count].fill(b' ');
}

// Two bytes, as each subformula takes them.
fn write_two(out: &mut [u8], at: usize, left: u8, right: u8)
    requires { at + 2 ≤ length out.old }
    ensures { out.new ≡ sets out.old at (left ∷ right ∷ []) }
{
    out[at] = left;
    out[at + 1] = right;
}

// Behind so many columns of a line: spaces to 79, and byte 10.
fn end_line(out: &mut [u8], start: usize, columns: usize)
    requires { (columns ≤ 79) × (start + 80 ≤ length out.old) }
    ensures { out.new ≡ sets out.old (start + columns) (replicate (79 - columns) 32 ++ (10 ∷ [])) }
{
    write_spaces(out, start + columns, 79 - columns);
    out[start + 79] = b'\n';
}

// The subformula numbers, two columns each. The loop's number is what is written, and no index.
fn write_numbers(out: &mut [u8], at: usize, count: usize)
    requires { (count ≤ 32) × (at + 2 * count ≤ length out.old) }
    ensures { out.new ≡ sets out.old at (flatten (tab two_columns count)) }
{
    for k in 0..count {
        write_two(out, at + 2 * k, digit_column(k, 10), digit_column(k, 1));
    }
}

// The first line: spaces above state, owner and label, and the numbers.
fn write_heading(out: &mut [u8], count: usize)
    requires { (count ≤ 32) × (80 ≤ length out.old) }
    ensures { out.new ≡ sets out.old 0 (filled_line (heading count)) }
{
    write_spaces(out, 0, 15);
    write_numbers(out, 15, count);
    end_line(out, 0, 15 + 2 * count);
}

// What stands on paper for a cell.
#[tactic(auto, unfolding(page_text::specs::Page::cell_mark, cells::specs::Table::is_empty))]
fn mark(cell: u8) -> u8
    requires { cell ≤ 2 }
    ensures { result ≡ cell_mark cell }
{
    match cell {
        2 => b'.',
        _ => b'0' + cell,
    }
}

// The cells of a node at a state, two columns each. They are one run of the table.
fn write_cells(m: &Image, table: &[u8], n: usize, s: usize, out: &mut [u8])
    requires ready { Ready m.now table.now }
    requires row { IsRow (job_of m.now) n s }
    requires room { 80 * s + 160 ≤ length out.old }
    ensures { out.new ≡ sets out.old (80 * s + 95) (row_cells (job_of m.now) table.now n s) }
{
    let first = cell_at(m, n, s, 0);
    for (k, &cell) in table[first..first + m.subformulas()].iter().enumerate() {
        write_two(out, 80 * s + 95 + 2 * k, b' ', mark(cell));
    }
}

// The line of a state.
fn write_row(m: &Image, table: &[u8], n: usize, s: usize, out: &mut [u8])
    requires ready { Ready m.now table.now }
    requires row { IsRow (job_of m.now) n s }
    requires room { 80 * s + 160 ≤ length out.old }
    ensures { out.new
        ≡ sets out.old (80 * s + 80) (page_line (job_of m.now) table.now n (suc s)) }
{
    write_field(out, 80 * s + 80, s);
    write_field(out, 80 * s + 85, m.owner(s));
    write_field(out, 80 * s + 90, usize::from(m.label(s)));
    write_cells(m, table, n, s, out);
    end_line(out, 80 * s + 80, 15 + 2 * m.subformulas());
}

// All lines, one behind the other. The buffer's bound is this function's alone.
pub fn write_page(m: &Image, table: &[u8], n: usize, out: &mut [u8])
    requires ready { Ready m.now table.now }
    requires n_bound { (n < (job_of m.now).nodes) × (80 * (size (job_of m.now) + 1) ≤ length out.old) }
    ensures { out.new ≡ sets out.old 0 (page (job_of m.now) table.now n) }
{
    write_heading(out, m.subformulas());
    for s in 0..m.states() {
        write_row(m, table, n, s, out);
    }
}
