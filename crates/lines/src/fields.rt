// A word and the number after it, and lines of such fields. A number of 64 bits has 20 digits at most, or a minus and
// 19.
ghost use Rattle.std.specs.Prelude.{◌+◌, ◌≤◌, [], ◌∷◌, ◌++◌, length};
ghost use Rattle.std.specs.Int.{w64};
ghost use Rattle.std.proofs.Common.{to_z};
ghost use Rattle.text.specs.Decimal.{decimal, signed};
ghost use Rattle.text.specs.work.Put.{Put};

pub(crate) const LINE_END: u8 = b'\n';

pub(crate) fn field(out: &mut [u8], at: usize, word: &[u8], x: u64) -> usize
    requires { at + length word.now + 20 ≤ length out.old }
    ensures { Put out.old at (word.now ++ decimal x) out.new result
        × (result ≤ at + length word.now + 20) }
{
    let a = text::put_word(out, at, word);
    text::put_number(out, a, x)
}

// The number by its 64 bits.
fn weight(out: &mut [u8], at: usize, word: &[u8], bits: u64) -> usize
    requires { at + length word.now + 20 ≤ length out.old }
    ensures { Put out.old at (word.now ++ signed (to_z w64 bits)) out.new result
        × (result ≤ at + length word.now + 20) }
{
    let a = text::put_word(out, at, word);
    text::put_bits(out, a, bits)
}

// A line's first two words, each with its number.
pub(crate) fn two_fields(out: &mut [u8], word: &[u8], x: u64, other: &[u8], y: u64) -> usize
    requires { length word.now + length other.now + 40 ≤ length out.old }
    ensures { Put out.old 0 (word.now ++ decimal x ++ (other.now ++ decimal y))
        out.new result
        × (result ≤ length word.now + length other.now + 40) }
{
    let a = field(out, 0, word, x);
    field(out, a, other, y)
}

// What such a line tells, the weight by its 64 bits.
#[derive(Clone, Copy)]
pub(crate) struct Row {
    pub(crate) low: u64,
    pub(crate) high: u64,
    pub(crate) len: u64,
    pub(crate) bits: u64,
}

// A line of two nodes, a length and a weight, a space between the nodes.
pub(crate) fn four_fields(
    out: &mut [u8],
    at: usize,
    word: &[u8],
    third: &[u8],
    fourth: &[u8],
    row: Row,
) -> usize
    requires { at + length word.now + length third.now + length fourth.now + 82 ≤ length out.old }
    ensures { Put out.old at
        (word.now ++ decimal row.low
        ++ (32 ∷ [] ++ decimal row.high)
        ++ (third.now ++ decimal row.len)
        ++ (fourth.now ++ signed (to_z w64 row.bits))
        ++ 10 ∷ []) out.new result
        × (result ≤ at + length word.now + length third.now + length fourth.now + 82) }
{
    let a = field(out, at, word, row.low);
    let b = field(out, a, b" ", row.high);
    let c = field(out, b, third, row.len);
    let d = weight(out, c, fourth, row.bits);
    text::put_byte(out, d, LINE_END)
}
