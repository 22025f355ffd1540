// The map and its parts.
ghost use Rattle.std.specs.Prelude.{◌≡◌};
ghost use Rattle.t_mesh.specs.Tmesh.{unpulled, mesh_store, with_store, corner, corners, corner_store, listed_in, new_tmesh};

use control_point::t_mesh_control_point::{Side, TmeshControlPoint, loose_point};
use grid_index::Index;
use ray::knots::PointKnots;
use store::store::Store;

#[derive(Clone, Copy)]
pub struct Position {
    pub x: f64,
    pub y: f64,
    pub z: f64,
}

// Where a point stands, and how hard it pulls: in an evaluation its weight is basis product × pull.
#[derive(Clone, Copy)]
pub struct Place {
    pub position: Position,
    pub pull: f64,
}

// The points and how many are made, as in a store; their places; which of them are listed. The arrays stand first, so that they are copied together.
#[derive(Clone, Copy)]
pub struct Mesh {
    pub points: [TmeshControlPoint; 128],
    pub places: [Place; 128],
    pub listed: [bool; 128],
    pub made: u8,
}

// A mesh, and whether the knots of its listed points and the index built from them are kept. Where they are not, what stands in their place means nothing.
#[derive(Clone, Copy)]
pub struct Tmesh {
    pub mesh: Mesh,
    pub knots: [PointKnots; 128],
    pub index: Index,
    pub kept: bool,
}

// The place of a point when it is made.
pub fn unpulled(position: Position) -> Place
    ensures { result ≡ unpulled position }
{
    Place {
        position,
        pull: 1.0,
    }
}

// The store of a mesh, for the calls that take one.
pub fn store_of(mesh: Mesh) -> Store
    ensures { result ≡ mesh_store mesh }
{
    let points = mesh.points;
    Store {
        points,
        made: mesh.made,
    }
}

// A map with the store that a direct call left; its listing, its positions and pulls, its kept knots and their index are as they were.
pub fn with_store(mut map: Tmesh, store: Store) -> Tmesh
    ensures { result ≡ with_store map store }
{
    let points = store.points;
    let places = map.mesh.places;
    let listed = map.mesh.listed;
    let mesh = Mesh {
        points,
        made: store.made,
        places,
        listed,
    };
    map.mesh = mesh;
    map
}

// Whether a number is listed.
pub fn is_listed(listed: [bool; 128], n: u8) -> bool
    ensures { result ≡ listed_in listed n }
{
    if n < 128 { listed[n as usize] } else { false }
}

// A corner's sides, and its coordinates.
fn corner(up: Side, right: Side, down: Side, left: Side, s: f64, t: f64) -> TmeshControlPoint
    ensures { result ≡ corner up right down left s t }
{
    TmeshControlPoint {
        up,
        right,
        down,
        left,
        s,
        t,
    }
}

// The four corners, anticlockwise from bottom left.
pub fn corners(weight: f64) -> [TmeshControlPoint; 4]
    ensures { result ≡ corners weight }
{
    let border = Side::Border(weight);
    let bottom_left = corner(
        Side::Link(3, 1.0),
        Side::Link(1, 1.0),
        border,
        border,
        0.0,
        0.0,
    );
    let bottom_right = corner(
        Side::Link(2, 1.0),
        border,
        border,
        Side::Link(0, 1.0),
        1.0,
        0.0,
    );
    let top_right = corner(
        border,
        border,
        Side::Link(1, 1.0),
        Side::Link(3, 1.0),
        1.0,
        1.0,
    );
    let top_left = corner(
        border,
        Side::Link(2, 1.0),
        Side::Link(0, 1.0),
        border,
        0.0,
        1.0,
    );
    [bottom_left, bottom_right, top_right, top_left]
}

fn corner_store(weight: f64) -> Store
    ensures { result ≡ corner_store weight }
{
    let four = corners(weight);
    let mut points = [loose_point(0.0); 128];
    points[0] = four[0];
    points[1] = four[1];
    points[2] = four[2];
    points[3] = four[3];
    Store { points, made: 4 }
}

impl Tmesh {
    // The map of four corners, anticlockwise from bottom left, with one weight on all borders.
    pub fn new(
        weight: f64,
        bottom_left: Position,
        bottom_right: Position,
        top_right: Position,
        top_left: Position,
    ) -> Tmesh
        ensures { result ≡ new_tmesh weight bottom_left bottom_right top_right top_left }
    {
        let store = corner_store(weight);
        let points = store.points;
        let origin = Position {
            x: 0.0,
            y: 0.0,
            z: 0.0,
        };
        let mut places = [unpulled(origin); 128];
        places[0] = unpulled(bottom_left);
        places[1] = unpulled(bottom_right);
        places[2] = unpulled(top_right);
        places[3] = unpulled(top_left);
        let mut listed = [false; 128];
        listed[0] = true;
        listed[1] = true;
        listed[2] = true;
        listed[3] = true;
        let blank = PointKnots {
            s: [0.0; 5],
            t: [0.0; 5],
        };
        Tmesh {
            mesh: Mesh {
                points,
                made: store.made,
                places,
                listed,
            },
            kept: false,
            knots: [blank; 128],
            index: Index {
                first: [0; 256],
                second: [0; 256],
            },
        }
    }
}
