// The eight numbers of an answer, written in one place; the number is handed back.
ghost use Rattle.std.specs.Prelude.{◌≡◌, List, ℕ};
ghost use Rattle.eight.specs.Call.{call, in_c};
ghost use Rattle.eight.specs.Shown.{refusal_in_c};
ghost use Rattle.eight.specs.work.Room.{WideRoom};

use tree::Refusal;

// Writes all eight; the row's number may have 63 bits. The fields one by one, as `in_c` has them.
fn fill(
    number: u8,
    row: usize,
    ring: usize,
    f0: i64,
    f1: i64,
    f2: i64,
    f3: i64,
    answer: &mut [i64; 8],
) -> u8
    requires { WideRoom row ring }
    ensures { (lent : List ℕ)
        → call result answer.new lent ≡ in_c number row ring f0 f1 f2 f3 lent }
{
    // usize has no From into i64; both numbers fit (`WideRoom`).
    let (row, ring) = (row as i64, ring as i64);
    *answer = [i64::from(number), row, ring, f0, f1, f2, f3, 0];
    number // the first of the eight is what the call returns
}

// Nothing is refused: the operation's fields, zeros elsewhere.
pub(crate) fn fine(f0: i64, f1: i64, f2: i64, f3: i64, answer: &mut [i64; 8]) -> u8
    ensures { (lent : List ℕ)
        → call result answer.new lent ≡ in_c 0 0 0 f0 f1 f2 f3 lent }
{
    fill(0, 0, 0, f0, f1, f2, f3, answer)
}

// Number, row and ring as they are told, zeros elsewhere.
pub(crate) fn refuse(why: Refusal, answer: &mut [i64; 8]) -> u8
    requires { WideRoom why.row why.ring }
    ensures { (lent : List ℕ)
        → call result answer.new lent ≡ refusal_in_c why lent }
{
    fill(why.number, why.row, why.ring, 0, 0, 0, 0, answer)
}
