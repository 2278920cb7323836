// How many bytes a text takes, known before the first is written.
ghost use Rattle.std.specs.Prelude.{◌≡◌, ◌+◌, ◌-◌, ◌*◌, ◌≤◌, ◌<◌, length};
ghost use Rattle.written.specs.work.Rows.{row_arc, RowsThere};
ghost use Rattle.written.specs.work.Texts.{number_text, row_text, rows_text, text_of};

use text::digits_of;

// A table's rows as one text has them: of each the number at `place`, negative beyond `top`.
#[derive(Clone, Copy)]
pub(crate) struct Rows<'a> {
    pub(crate) table: &'a [u8],
    pub(crate) top: u64,
    pub(crate) place: usize,
}

fn number_size(b: u64, top: u64) -> usize
    requires { b < 4294967296 }
    ensures { (result ≡ length (number_text top b)) × (result ≤ 21) }
{
    if b <= top {
        return digits_of(b);
    }
    1 + digits_of(4294967296 - b)
}

// A row's two lines, which are of one size.
fn row_size(t: Rows, r: usize) -> usize
    requires { (24 + 12 * r ≤ length t.table.now) × (t.place ≤ 8) }
    ensures { (result ≡ length (row_text t.entry.top (row_arc t.entry.place t.entry.table.now r))) × (result ≤ 132) }
{
    let i = 12 + 12 * r;
    let from = digits_of(numbers::two(t.table, i) + 1);
    let to = digits_of(numbers::two(t.table, i + 2) + 1);
    let number = number_size(numbers::four(t.table, i + t.place), t.top);
    2 * (5 + from + to + number)
}

fn rows_size(t: Rows, rows: usize) -> usize
    requires { RowsThere t.table.now rows t.place }
    ensures { (result ≡ length (rows_text t.entry.top (row_arc t.entry.place t.entry.table.now) rows))
        × (result ≤ 540540) }
{
    let mut k: usize = 0;
    for r in 0..rows {
        k += row_size(t, r);
    }
    k
}

pub fn text_size(s: &[u8], nodes: u16, top: u64, place: usize) -> usize
    requires { (1 ≤ nodes) × RowsThere s.now (nodes - 1) place }
    ensures { result ≡ length (text_of top nodes (row_arc place s.now) (nodes - 1)) }
{
    let rows = usize::from(nodes) - 1;
    let n = digits_of(u64::from(nodes));
    let m = digits_of(2 * (rows as u64));
    let t = Rows {
        table: s,
        top,
        place,
    };
    7 + n + m + rows_size(t, rows)
}
