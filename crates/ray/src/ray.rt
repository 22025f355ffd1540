// The ray: its entries, into a lent buffer.
ghost use Rattle.std.specs.Prelude.{◌≡◌, length, replicate};
ghost use Rattle.control_point.specs.Sides.{lent_sides};
ghost use Rattle.float64.specs.Literals.{zero_literal};
ghost use Rattle.ray.specs.Ray.{cast_over, cast_ray, cast_told};
ghost use Rattle.ray.specs.Table.{cast_table};

use control_point::refusal::Refusal;
use control_point::sides::LentSides;
use control_point::t_mesh_control_point::is_made;
use control_point::t_mesh_direction::TmeshDirection;
use ray_entry::entry::{next_entry, on_ray};
use store::store::Store;

// All 0.0.
fn clear(buffer: &mut [f64])
    ensures { buffer.new ≡ replicate (length buffer.old) zero_literal }
{
    buffer.fill(0.0);
}

// As many entries as the buffer holds; refused, the buffer is all 0.0.
pub fn cast(
    closeness: f64,
    sides: &LentSides,
    made: u8,
    start: u8,
    direction: TmeshDirection,
    buffer: &mut [f64],
) -> Result<(), Refusal>
    ensures { (result, buffer.new) ≡ cast_over closeness (lent_sides sides.now) made start direction buffer.old }
{
    if !is_made(made, start) {
        clear(buffer);
        return Err(Refusal::NoPoint);
    }
    let mut front = on_ray(start, false);
    for i in 0..buffer.len() {
        match next_entry(closeness, sides, made, direction, front) {
            Err(refusal) => {
                clear(buffer);
                return Err(refusal);
            }
            Ok(entry) => {
                buffer[i] = entry.value;
                front = entry.front;
            }
        }
    }
    Ok(())
}

// The same on a store.
pub fn cast_ray(
    closeness: f64,
    store: Store,
    start: u8,
    direction: TmeshDirection,
    buffer: &mut [f64],
) -> Result<(), Refusal>
    ensures is { (result, buffer.new) ≡ cast_ray closeness store start direction buffer.old }
    ensures told { cast_told (result, buffer.new) ≡ cast_table closeness store start direction (length buffer.old) }
{
    let made = store.made;
    let points = store.points;
    let mut sides = LentSides::blank();
    sides.fill(points);
    cast(closeness, &sides, made, start, direction, buffer)
}
