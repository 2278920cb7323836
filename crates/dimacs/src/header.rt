// The header of a version 1 table.
ghost use Rattle.std.specs.Prelude.{◌≡◌, ◌≤◌, length};
ghost use Rattle.std.proofs.lemmas.List.Edits.{sets};
ghost use Rattle.arcs.specs.Made.{header_bytes};

use numbers::put_bytes;

pub(crate) fn put_header(table: &mut [u8], nodes: u16, bound: u32)
    requires { 12 ≤ length table.old }
    ensures { table.new ≡ sets table.old 0 (header_bytes nodes bound) }
{
    text::put_word(table, 0, b"RTN");
    put_bytes(table, 3, 1, 2);
    put_bytes(table, 5, u64::from(nodes), 2);
    put_bytes(table, 7, 0, 1);
    put_bytes(table, 8, u64::from(bound), 4);
}
