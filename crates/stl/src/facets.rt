// A triangle as one record of floats, and that record as bytes.
ghost use Rattle.std.specs.Prelude.{◌≡◌, ◌+◌, ◌*◌, ◌≤◌, ◌<◌, length};
ghost use mathlib.Core.List.{◌++◌, map, flat_map};
ghost use Rattle.laws.specs.Parts.{in_front};
ghost use Rattle.laws.specs.Internal.Parts.{splice};
ghost use Rattle.points.specs.NextPoints.{point_of};
ghost use Rattle.cagefile.specs.Numbers.{u16};
ghost use Rattle.floats.specs.Floats.{float_of};
ghost use Rattle.stl.specs.File.{facet_at};
ghost use Rattle.stl.specs.Internal.Facets.{floats, float_bytes, Number, Numbers, Filled, Ranged, Placed, Drawn};

use cagefile::numbers;
use floats::coordinate;
use halfedges::corners;

// What a facet takes: twelve floats and a zero word.
pub const FACET: usize = 50;

// A facet: its normal, and its three corners a, b and c.
#[derive(Clone, Copy)]
pub struct Facet {
    pub nx: f32,
    pub ny: f32,
    pub nz: f32,
    pub ax: f32,
    pub ay: f32,
    pub az: f32,
    pub bx: f32,
    pub by: f32,
    pub bz: f32,
    pub cx: f32,
    pub cy: f32,
    pub cz: f32,
}

// The floats of a corner's point.
fn corner_of(points: &[i32], corner: u32) -> [f32; 3]
    requires { (3 * corner + 2 < length points.now) × (Ranged points.now) }
    ensures { result ≡ map float_of (point_of points.now corner) }
{
    let place = 3 * (corner as usize);
    let x = coordinate(points[place]);
    let y = coordinate(points[place + 1]);
    let z = coordinate(points[place + 2]);
    [x, y, z]
}

// A triangle's facet, from its three corners. The normal is zero.
pub fn facet_of(points: &[i32], corners: [u32; 3]) -> Facet
    requires { Placed points.now corners × (Ranged points.now) }
    ensures { Filled points.now corners result }
{
    let a = corner_of(points, corners[0]);
    let b = corner_of(points, corners[1]);
    let c = corner_of(points, corners[2]);
    Facet {
        nx: 0.0,
        ny: 0.0,
        nz: 0.0,
        ax: a[0],
        ay: a[1],
        az: a[2],
        bx: b[0],
        by: b[1],
        bz: b[2],
        cx: c[0],
        cy: c[1],
        cz: c[2],
    }
}

// Three floats into twelve bytes.
fn put_floats(part: &mut [u8], at: usize, x: f32, y: f32, z: f32)
    requires { (at + 12 ≤ length part.old) × (Number x) × (Number y) × (Number z) }
    ensures { part.new ≡ splice part.old at (float_bytes x ++ (float_bytes y ++ float_bytes z)) }
{
    numbers::put_word(&mut *part, at, f32::to_bits(x));
    numbers::put_word(&mut *part, at + 4, f32::to_bits(y));
    numbers::put_word(&mut *part, at + 8, f32::to_bits(z));
}

// A facet into the front of a lent part.
pub fn put_facet(part: &mut [u8], facet: Facet)
    requires { (50 ≤ length part.old) × (Numbers (floats facet)) }
    ensures { part.new ≡ in_front (flat_map float_bytes (floats facet) ++ u16 0) part.old }
{
    put_floats(&mut *part, 0, facet.nx, facet.ny, facet.nz);
    put_floats(&mut *part, 12, facet.ax, facet.ay, facet.az);
    put_floats(&mut *part, 24, facet.bx, facet.by, facet.bz);
    put_floats(&mut *part, 36, facet.cx, facet.cy, facet.cz);
    numbers::put_number(&mut *part, 48, 0);
}

// A triangle's facet into the front of a lent part.
pub fn put_triangle(part: &mut [u8], vert: &[u32], points: &[i32], triangle: usize)
    requires { (50 ≤ length part.old) × (3 * triangle + 2 < length vert.now) × (Drawn vert.now points.now) }
    ensures { part.new ≡ in_front (facet_at vert.now points.now triangle) part.old }
{
    let facet = facet_of(points, corners::corners_of(vert, triangle));
    put_facet(&mut *part, facet);
}
