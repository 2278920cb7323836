// Arrays by spot: each node puts something at its spot.
ghost use Rattle.std.specs.Prelude.{ℕ, ◌+◌, ◌≤◌, ◌<◌, ◌≡◌};
ghost use Rattle.arrays.specs.At.{at};
ghost use Rattle.layout.specs.work.Laid.{Spots, Laid, LaidOf};

// Each node from lo on puts what f says of it at its spot; elsewhere is `none`.
fn lay<T: Copy, F: Fn(usize) -> T>(
    spot: &[u16; 4096],
    lo: usize,
    n: usize,
    to: &mut [T; 4096],
    none: T,
    f: F,
)
    requires spots { Spots n spot.now × (lo ≤ n) }
    requires says { (v : ℕ) → lo ≤ v → v < n → F.pre f v }
    ensures { (g : ℕ → T) → ((v : ℕ) (r : T) → lo ≤ v → v < n → F.post f v r → r ≡ g v)
        → LaidOf none lo n spot.now g to.new }
{
    for x in to.iter_mut() {
        *x = none;
    }
    for v in lo..n {
        to[usize::from(spot[v])] = f(v);
    }
}

// The name of each spot: the node whose spot it is.
pub(crate) fn lay_names(spot: &[u16; 4096], n: usize, names: &mut [u16; 4096])
    requires { Spots n spot.now }
    ensures { Laid 0 n spot.now (λ v. v) names.new }
{
    lay(spot, 0, n, names, 0, |v| v as u16);
}

// Where the span of each spot ends.
pub(crate) fn lay_stops(spot: &[u16; 4096], size: &[u16; 4096], n: usize, stops: &mut [u16; 4096])
    requires spots { Spots n spot.now }
    requires by_index { (v : ℕ) → v < n → at spot.now v + at size.now v ≤ n }
    ensures { Laid 0 n spot.now (λ v. at spot.now v + at size.now v)
        stops.new }
{
    lay(spot, 0, n, stops, 0, |v| spot[v] + size[v]);
}

// The spot of another node for each spot but the root's: of its head, or of its parent.
pub(crate) fn lay_spots(spot: &[u16; 4096], from: &[u16; 4096], n: usize, to: &mut [u16; 4096])
    requires spots { Spots n spot.now }
    requires by_index { (v : ℕ) → 1 ≤ v → v < n → at from.now v < n }
    ensures { Laid 1 n spot.now (λ v. at spot.now (at from.now v))
        to.new }
{
    lay(spot, 1, n, to, 0, |v| spot[usize::from(from[v])]);
}

// What stands at each node, by spot.
pub(crate) fn lay_long(spot: &[u16; 4096], from: &[u64; 4096], n: usize, to: &mut [u64; 4096])
    requires { Spots n spot.now }
    ensures { Laid 0 n spot.now (λ v. at from.now v) to.new }
{
    lay(spot, 0, n, to, 0, |v| from[v]);
}
