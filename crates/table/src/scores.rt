// Cell kinds and their scores.
ghost use Rattle.std.specs.Prelude.{◌≡◌};
ghost use Rattle.table.specs.Scores.{score_of};

// The score table: kinds 0 to 23.
const SCORES: [u16; 24] = [
    1, 2, 2, 3, 3, 4, 4, 5, 6, 6, 8, 8, 10, 10, 12, 12, 14, 14, 16, 16, 18, 20, 22, 24,
];

// What a cell of a kind scores: by the score table, as filler, as blocked ground. An unknown kind scores 0: 22 refuses
// its row.
pub(crate) fn score_of(kind: u16) -> i32
    ensures { result ≡ score_of kind }
{
    match kind {
        0..=23 => i32::from(SCORES[usize::from(kind)]),
        24..=31 => 0,
        32..=63 => -50,
        _ => 0,
    }
}
