// The operation write: a table of version 1 to two texts. Both sizes are known before a byte is written, so that a
// refusal has written nothing.
ghost use Rattle.std.specs.Prelude.{◌≡◌, Ok};
ghost use Rattle.net.specs.work.Net.{Net};
ghost use Rattle.dimacs.specs.Write.{GivesTexts, VersionOne, version_refusal, WriteOf};

use crate::{Texts, WriteAnswer, rowless};
use roads::{LENGTH_TOP, WEIGHT_TOP};
use tree::Refusal;
use written::{put_text, text_size};

// Where a row has its length and its weight.
const LENGTH: usize = 4;

const WEIGHT: usize = 8;

// Between crates: 1, 2, and 3 for any version but 1.
pub fn version_one(s: &[u8]) -> Result<(), Refusal>
    ensures { VersionOne _ version_refusal s.now (λ x. x ≡ Ok tt) result }
{
    if s.len() < 12 {
        return Err(rowless(1));
    }
    if s[0] != b'R' || s[1] != b'T' || s[2] != b'N' {
        return Err(rowless(2));
    }
    if numbers::two(s, 3) != 1 {
        return Err(rowless(3));
    }
    Ok(())
}

// Of an accepted table of version 1: 29, and the two texts.
fn write_net(s: &[u8], nodes: u16, lengths: &mut [u8], weights: &mut [u8]) -> WriteAnswer
    requires { Net s.now nodes }
    ensures { GivesTexts s.now nodes lengths.old weights.old
        (result, lengths.new, weights.new) }
{
    let a = text_size(s, nodes, LENGTH_TOP, LENGTH);
    let b = text_size(s, nodes, WEIGHT_TOP, WEIGHT);
    if lengths.len() < a || weights.len() < b {
        return Err(rowless(29));
    }
    put_text(lengths, s, nodes, LENGTH_TOP, LENGTH);
    put_text(weights, s, nodes, WEIGHT_TOP, WEIGHT);
    Ok(Texts {
        lengths: a,
        weights: b,
    })
}

// A table of version 1 as a text with lengths and one with weights, into the lent bytes.
pub fn write(s: &[u8], lengths: &mut [u8], weights: &mut [u8]) -> WriteAnswer
    ensures { WriteOf s.now lengths.old weights.old
        (result, lengths.new, weights.new) }
{
    version_one(s)?;
    let net = tree::accept(s)?;
    write_net(s, net.nodes, lengths, weights)
}
