// The counts of a map.
ghost use Rattle.std.specs.Prelude.{◌≡◌, false, ◌+◌, get_or};
ghost use Rattle.counting.specs.Counting.{count_below};
ghost use Rattle.control_point.specs.Point.{is_link, is_border};
ghost use Rattle.control_point.specs.declared.t_mesh_direction.TmeshDirection.TheVariants.{Up, Right};
ghost use Rattle.census.specs.Census.{sides_towards, sides_that, counts_of, links_ahead, borders_around};

use crate::census::Counts;
use control_point::t_mesh_control_point::{TmeshControlPoint, is_border, is_link, is_made};
use store::store::Store;
use t_mesh::t_mesh::{Tmesh, store_of};

// The two-way links and the borders of the points made.
#[derive(Clone, Copy)]
struct SideCounts {
    links: u16,
    borders: u16,
}

// A sum and not `filter` and `count`, which the compiler turns into a step for each flag: the sum adds many flags at a time.
#[tactic(auto, using(crate::proofs::CensusLaws::listed_below))]
fn count_listed(listed: [bool; 128]) -> u8
    ensures { result ≡ count_below 128 (λ n. get_or listed n false) }
{
    let mut sum: u8 = 0;
    for is_listed in listed.iter() {
        sum += u8::from(*is_listed);
    }
    sum
}

// The links that are counted at a point: those Up and Right.
fn links_ahead(point: TmeshControlPoint) -> u8
    ensures { result ≡ links_ahead point }
{
    let up = u8::from(is_link(point.up));
    let right = u8::from(is_link(point.right));
    up + right
}

// The borders of a point.
fn borders_around(point: TmeshControlPoint) -> u8
    ensures { result ≡ borders_around point }
{
    let up = u8::from(is_border(point.up));
    let right = u8::from(is_border(point.right));
    let down = u8::from(is_border(point.down));
    let left = u8::from(is_border(point.left));
    up + right + down + left
}

#[tactic(auto, using(crate::proofs::CensusLaws::sums_below))]
fn count_sides(store: Store) -> SideCounts
    ensures links { result.links ≡ sides_towards is_link store Up + sides_towards is_link store Right }
    ensures borders { result.borders ≡ sides_that is_border store }
{
    let made = store.made;
    let mut links: u16 = 0;
    let mut borders: u16 = 0;
    for n in 0..128u8 {
        if is_made(made, n) {
            let point = store.points[usize::from(n)];
            links += u16::from(links_ahead(point));
            borders += u16::from(borders_around(point));
        }
    }
    SideCounts { links, borders }
}

// The points made, the points listed, the two-way links, each by its side Up or Right, and the borders.
#[tactic(auto, unfolding(crate::specs::Census::counts_of))]
pub fn counts(map: Tmesh) -> Counts
    ensures { result ≡ counts_of map }
{
    let store = store_of(map.mesh);
    let sides = count_sides(store);
    Counts {
        made: store.made,
        listed: count_listed(map.mesh.listed),
        links: sides.links,
        borders: sides.borders,
    }
}
