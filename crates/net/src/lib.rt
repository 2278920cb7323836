// What a net is: its meaning in specs/, its laws in proofs/. In code the two ends of a row, as places of the arrays:
// all that the ring test and the walk read of a table's rows.
#![tactic(auto)]

ghost use Rattle.std.specs.Prelude.{◌≡◌};
ghost use Rattle.table.specs.Row.{Stands};
ghost use Rattle.net.specs.Net.{first_end, second_end};

pub fn first_end(s: &[u8], r: usize) -> usize
    requires { Stands s.now r }
    ensures { result ≡ first_end s.now r }
{
    usize::from(table::row_at(s, r).a)
}

pub fn second_end(s: &[u8], r: usize) -> usize
    requires { Stands s.now r }
    ensures { result ≡ second_end s.now r }
{
    usize::from(table::row_at(s, r).b)
}
