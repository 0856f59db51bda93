// Copying that leaves out the subformulas of which no cell was filled since the last copying. The columns that it fills are stale.
ghost use Rattle.std.specs.Prelude.{◌≡◌, true, false, ◌<◌, ◌≤◌, get_or};
ghost use Rattle.job.specs.Job.{subformula_count};
ghost use Rattle.cells.specs.Close.{is_temporal};
ghost use Rattle.cells.specs.Rest.{Copied, Exchanged};
ghost use Rattle.image.specs.Denoted.{job_of};
ghost use Rattle.table.specs.Lent.{Lent, IsColumn, IsCell};
ghost use Rattle.table.specs.Filling.{of_column};
ghost use Rattle.messages.specs.News.{copied, PartCopied, NewsTaken, NewsCopied};

use image::image::Image;
use image::place::Place;
use job::rule::{is_temporal, rule_of};
use pending::Pending;
use table::cell::owner_cell;
use table::column::fill_column;

// What a cell of temporal subformula k takes: the owner's cell at a border state, and 2, which fills nothing, elsewhere.
fn message(m: &Image, table: &[u8], n: usize, s: usize, k: usize) -> u8
    requires lent { Lent m.now table.now }
    requires cell { (IsCell (job_of m.now) n s k) × (is_temporal (job_of m.now) k ≡ true) }
    ensures { result ≡ copied (job_of m.now) table.now n s k }
{
    if m.place(n, s) != Place::Border {
        return 2;
    }
    owner_cell(m, table, s, k)
}

// The cells of node n and temporal subformula k.
fn copy_column(m: &Image, table: &mut [u8], pending: &mut Pending, n: usize, k: usize) -> usize
    requires lent { Lent m.now table.old }
    requires column { IsColumn (job_of m.now) n k }
    requires temporal { is_temporal (job_of m.now) k ≡ true }
    ensures part_copied { PartCopied (job_of m.now) (of_column n k) table.old pending.old.stale
        table.new pending.new.stale result }
    ensures news { pending.new.news ≡ pending.old.news }
    ensures upper_bound { result ≤ 256 }
{
    let filled = fill_column(m, table, n, k, |table, s| message(m, table, n, s, k));
    if filled == 0 {
        return 0;
    }
    pending.mark_stale(n, k);
    filled
}

// The cells of subformula k if it has news, which are then told.
fn copy_subformula(m: &Image, table: &mut [u8], pending: &mut Pending, k: usize) -> usize
    requires lent { Lent m.now table.old }
    requires k_bound { k < subformula_count (job_of m.now) }
    requires copied { get_or pending.old.news k false ≡ false → Copied (job_of m.now) table.old k }
    ensures news_taken { NewsTaken (job_of m.now) k table.old pending.old
        table.new pending.new result }
    ensures upper_bound { result ≤ 65536 }
{
    if !pending.take_news(k) {
        return 0;
    }
    if !is_temporal(rule_of(m.subformula(k))) {
        return 0;
    }
    let mut filled = 0;
    for n in 0..m.nodes() {
        filled += copy_column(m, table, pending, n, k);
    }
    filled
}

// Copies every owner's filled temporal cell into the empty cells for it at border states. Returns how many cells are filled.
pub fn copy_news(m: &Image, table: &mut [u8], pending: &mut Pending) -> usize
    requires lent { Lent m.now table.old }
    requires exchanged { Exchanged (job_of m.now) pending.old.news table.old }
    ensures { NewsCopied (job_of m.now) table.old pending.old
        table.new pending.new result }
{
    let mut filled = 0;
    for k in 0..m.subformulas() {
        filled += copy_subformula(m, table, pending, k);
    }
    filled
}
