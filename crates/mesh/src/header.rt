// The header of a version 3 table: refusals 1 to 6 as this version has them.
ghost use Rattle.mesh.specs.work.Head.{HeadTold};

use numbers::two;

// The node count and the number of rows.
#[derive(Clone, Copy, Drop)]
pub(crate) struct Head {
    pub nodes: usize,
    pub rows: usize,
}

// What a good header says, or the number that it is refused by.
pub(crate) fn open(s: &[u8]) -> Result<Head, u8>
    ensures { HeadTold s.now result }
{
    if s.len() < 12 {
        return Err(1);
    }
    if s[0] != b'R' || s[1] != b'T' || s[2] != b'N' {
        return Err(2);
    }
    if two(s, 3) != 3 {
        return Err(3);
    }
    let nodes = two(s, 5);
    if nodes < 1 || 256 < nodes {
        return Err(4);
    }
    if s[7] != 0 {
        return Err(5);
    }
    let rows = (s.len() - 12) / 12;
    if s.len() != 12 + 12 * rows {
        return Err(6);
    }
    Ok(Head {
        nodes: nodes as usize,
        rows,
    })
}
