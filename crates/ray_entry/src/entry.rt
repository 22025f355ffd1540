// One entry of a ray, and where the ray then stands.
ghost use Rattle.std.specs.Prelude.{◌≡◌};
ghost use Rattle.control_point.specs.Sides.{lent_sides};
ghost use Rattle.ray_entry.specs.Entry.{entry_with, on_ray, in_march, corner_walk, face_walk, opening_entry, point_entry, over_face, around_face, march_entry, entry_of};

use control_point::refusal::Refusal;
use control_point::sides::LentSides;
use control_point::t_mesh_control_point::{Side, is_border, is_opening};
use control_point::t_mesh_direction::TmeshDirection;
use navigation::walk::{Walk, navigate};
use ray_approach::approach::{Approach, approach_ray};

// Where a ray stands between two entries.
#[derive(Clone, Copy, Debug)]
pub struct Front {
    pub at: u8,
    // The call's first border has been met.
    pub bordered: bool,
    // Where it marches along faces that the ray crosses: the distance of its point from the ray.
    pub march: Option<f64>,
}

// An entry: its value, and where the ray then stands.
#[derive(Clone, Copy, Debug)]
pub struct Entry {
    pub value: f64,
    pub front: Front,
}

fn entry_with(value: f64, front: Front) -> Entry
    ensures { result ≡ entry_with value front }
{
    Entry { value, front }
}

// At a point that the ray meets.
pub fn on_ray(at: u8, bordered: bool) -> Front
    ensures { result ≡ on_ray at bordered }
{
    Front {
        at,
        bordered,
        march: None,
    }
}

// In a march, at a distance from the ray.
fn in_march(at: u8, bordered: bool, distance: f64) -> Front
    ensures { result ≡ in_march at bordered distance }
{
    Front {
        at,
        bordered,
        march: Some(distance),
    }
}

// To the corner of the face that an opening looks into.
fn walk_to_corner(
    sides: &LentSides,
    made: u8,
    direction: TmeshDirection,
    at: u8,
) -> Result<Walk, Refusal>
    ensures { result ≡ corner_walk (lent_sides sides.now) made direction at }
{
    navigate(sides, made, at, direction.anti_clockwise(), direction)
}

// Along a face, from one corner to the next.
fn walk_over_face(
    sides: &LentSides,
    made: u8,
    direction: TmeshDirection,
    at: u8,
) -> Result<Walk, Refusal>
    ensures { result ≡ face_walk (lent_sides sides.now) made direction at }
{
    navigate(sides, made, at, direction, direction.clockwise())
}

// From an opening: a march begins.
fn opening_entry(
    sides: &LentSides,
    made: u8,
    direction: TmeshDirection,
    at: u8,
    bordered: bool,
) -> Result<Entry, Refusal>
    ensures { result ≡ opening_entry (lent_sides sides.now) made direction at bordered }
{
    let corner = walk_to_corner(sides, made, direction, at)?;
    let over = walk_over_face(sides, made, direction, corner.at)?;
    Ok(entry_with(0.0 + over.sum, in_march(over.at, bordered, corner.sum)))
}

// From a point that the ray meets.
fn point_entry(
    sides: &LentSides,
    made: u8,
    direction: TmeshDirection,
    at: u8,
    bordered: bool,
) -> Result<Entry, Refusal>
    ensures { result ≡ point_entry (lent_sides sides.now) made direction at bordered }
{
    match sides.made_side_at(made, at, direction)? {
        Side::Link(next, interval) => Ok(entry_with(0.0 + interval, on_ray(next, bordered))),
        Side::Border(weight) => {
            if bordered {
                Ok(entry_with(0.0, on_ray(at, true)))
            } else {
                Ok(entry_with(0.0 + weight, on_ray(at, true)))
            }
        }
        Side::Opening => opening_entry(sides, made, direction, at, bordered),
    }
}

// In a march, from one corner of a face to the next.
fn over_face(
    sides: &LentSides,
    made: u8,
    direction: TmeshDirection,
    at: u8,
    bordered: bool,
    distance: f64,
) -> Result<Entry, Refusal>
    ensures { result ≡ over_face (lent_sides sides.now) made direction at bordered distance }
{
    let walk = walk_over_face(sides, made, direction, at)?;
    Ok(entry_with(walk.sum, in_march(walk.at, bordered, distance)))
}

// The same, by way of the corner where the side is an opening.
fn around_face(
    sides: &LentSides,
    made: u8,
    direction: TmeshDirection,
    at: u8,
    bordered: bool,
    distance: f64,
) -> Result<Entry, Refusal>
    ensures { result ≡ around_face (lent_sides sides.now) made direction at bordered distance }
{
    if !is_opening(sides.side_at(at, direction)) {
        return over_face(sides, made, direction, at, bordered, distance);
    }
    let corner = walk_to_corner(sides, made, direction, at)?;
    over_face(
        sides,
        made,
        direction,
        corner.at,
        bordered,
        distance + corner.sum,
    )
}

// From a point at a distance from the ray.
fn march_entry(
    closeness: f64,
    sides: &LentSides,
    made: u8,
    direction: TmeshDirection,
    at: u8,
    bordered: bool,
    distance: f64,
) -> Result<Entry, Refusal>
    ensures { result ≡ march_entry closeness (lent_sides sides.now) made direction at bordered distance }
{
    if is_border(sides.side_at(at, direction)) {
        return point_entry(sides, made, direction, at, bordered);
    }
    match approach_ray(closeness, sides, made, direction, at, distance)? {
        Approach::Aligned(last) => point_entry(sides, made, direction, last, bordered),
        Approach::Crossed(last, left) => around_face(sides, made, direction, last, bordered, left),
    }
}

// The next entry from a front.
pub fn next_entry(
    closeness: f64,
    sides: &LentSides,
    made: u8,
    direction: TmeshDirection,
    front: Front,
) -> Result<Entry, Refusal>
    ensures { result ≡ entry_of closeness (lent_sides sides.now) made direction front }
{
    let Front {
        at,
        bordered,
        march,
    } = front;
    match march {
        Some(distance) => march_entry(closeness, sides, made, direction, at, bordered, distance),
        None => point_entry(sides, made, direction, at, bordered),
    }
}
