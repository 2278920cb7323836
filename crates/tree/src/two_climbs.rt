// Where the climbs of two nodes meet: the one that stands later in the order steps up until both stand at one node.
ghost use Rattle.std.specs.Prelude.{◌<◌};
ghost use Rattle.arrays.specs.At.{at};
ghost use Rattle.tree.specs.work.Meet.{Hung, Meets};

// Parents and places alone, and not the walk: hops climbs up to it when the walk's other arrays have other things.
pub fn meet(parent: &[u16; 4096], place: &[u16; 4096], n: usize, x: usize, y: usize) -> usize
    requires { Hung n parent.now place.now × (x < n) × (y < n) }
    ensures { Meets (at parent.now) x y result × (result < n) }
{
    let mut a = x;
    let mut b = y;
    while a != b {
        if place[a] < place[b] {
            b = usize::from(parent[b]);
        } else {
            a = usize::from(parent[a]);
        }
    }
    a
}
