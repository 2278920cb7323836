// The operation vet: whether a list of rows is the listing's, in any order; if not, the first row at fault or the first
// pair missing.
#![tactic(auto)]

ghost use Rattle.std.specs.Prelude.{◌≡◌, ◌/◌, ◌%◌, ◌≤◌, length};
ghost use Rattle.table.specs.Header.{bound_of};
ghost use Rattle.net.specs.work.Net.{Net};
ghost use Rattle.ground.specs.Considered.{Considered};
ghost use Rattle.vetting.specs.Vets.{Vets};
ghost use Rattle.vet.specs.Vet.{VetsOn, VetOf};

use ground::grounded;
use layout::spots_of;
use limits::Limit;
use pages::Sums;
use reach::Walk;
use table::{Opened, SUM_END};
use tree::Refusal;
use vetting::{Verdict, Vetted, vet_rows};

// The list beside the listing of the pairs within the bound and weighing at least the floor.
pub fn vet(s: &[u8], marks: &[u16], floor: i64, list: &[u8]) -> Vetted
    ensures { VetOf s.now marks.now floor list.now result }
{
    // Acceptance uses the walk's arrays before there is a walk.
    let mut walk = Walk::new();
    let net = tree::accept_in(s, &mut walk)?;
    go_on(s, marks, net, floor, list, &mut walk)
}

// 13 and 32, then the verdict, of an accepted net. The arrays are lent for its walk.
fn go_on(s: &[u8], marks: &[u16], net: Opened, floor: i64, list: &[u8], walk: &mut Walk) -> Vetted
    requires net { Net s.now net.nodes }
    requires bound_value { net.bound ≡ bound_of s.now }
    ensures { VetsOn s.now net.nodes marks.now floor list.now result }
{
    let n = usize::from(net.nodes);
    if marks.len() != n - 1 {
        return Err(Refusal::MARKS);
    }
    if list.len() % 16 != 0 {
        return Err(Refusal::LIST);
    }
    Ok(verdict(s, marks, net, floor, list, walk))
}

// The verdict on a list of whole rows: each is compared by numbers with what the layout by spots says of its pair. The
// half-branches serve the branches alone, and then spots are in half; the parents by spot stand in order, distances in
// bl, weights in bw; parent, place and gap are work arrays of the figures.
fn verdict(
    s: &[u8],
    marks: &[u16],
    net: Opened,
    floor: i64,
    list: &[u8],
    walk: &mut Walk,
) -> Verdict
    requires net { Net s.now net.nodes }
    requires bound_value { net.bound ≡ bound_of s.now }
    requires list_len { length list.now % 16 ≡ 0 }
    ensures { Vets
        (Considered (λ l. l ≤ bound_of s.now) s.now marks.now net.nodes floor)
        list.now (length list.now / 16) result }
{
    let mut bl: [u64; 4096] = [0; 4096];
    let mut bw: [u64; 4096] = [0; 4096];
    let mut gap: [u16; 4096] = [0; 4096];
    grounded(s, marks, net.nodes, walk, &mut bl, &mut bw);
    let n = usize::from(net.nodes);
    spots_of(
        &walk.parent,
        &mut walk.order,
        &walk.place,
        &mut bl,
        &mut bw,
        n,
        &mut walk.half,
    );
    let most = u64::from(net.bound);
    let limit = Limit { most, exact: false };
    let sums = Sums {
        floor: pages::raised(floor),
        end: SUM_END,
    };
    vet_rows(
        list,
        list.len() / 16,
        &walk.half,
        &walk.order,
        &bl,
        &bw,
        n,
        limit,
        sums,
        &mut walk.parent,
        &mut walk.place,
        &mut gap,
    )
}
