// Cells of the lent points.
ghost use Rattle.std.specs.Prelude.{◌≡◌, ℕ, ◌+◌, ◌*◌, ◌<◌, length};
ghost use Rattle.points.specs.NextPoints.{point_of};
ghost use Rattle.points.specs.Internal.Cells.{value, put, xyz, Changed};

// Coordinates x, y, z are stored from a cell on.
pub fn put_point(points: &mut [i32], to: usize, x: i32, y: i32, z: i32)
    requires { to + 2 < length points.old }
    ensures { points.new ≡ put to (xyz x y z) points.old }
{
    points[to] = x;
    points[to + 1] = y;
    points[to + 2] = z;
}

// Each of the three coordinates from a cell on becomes what f makes of it and of its number. All three are worked out before the
// first is stored.
pub fn change_point<F: Fn(i32, usize) -> i32>(points: &mut [i32], to: usize, f: F)
    requires room { to + 2 < length points.old }
    requires callable { (k : ℕ) → k < 3 → F.pre f (value points.old (to + k)) k }
    ensures { Changed (F.post f) to points.old points.new }
{
    let x = f(points[to], 0);
    let y = f(points[to + 1], 1);
    let z = f(points[to + 2], 2);
    put_point(points, to, x, y, z);
}

// A vertex's point.
pub fn point_of(points: &[i32], vertex: usize) -> [i32; 3]
    requires { 3 * vertex + 2 < length points.now }
    ensures { result ≡ point_of points.now vertex }
{
    let place = 3 * vertex;
    [points[place], points[place + 1], points[place + 2]]
}
