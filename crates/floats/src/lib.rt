// Coordinates as floats: whole units divided by 1024, exactly.
#![tactic(auto)]

ghost use Rattle.std.specs.Prelude.{◌≡◌, ◌≤◌, nat_abs};
ghost use Rattle.points.specs.Operations.{most_coordinate};
ghost use Rattle.floats.specs.Floats.{float_of};

// A coordinate in range as a float.
pub fn coordinate(units: i32) -> f32
    requires { nat_abs units ≤ most_coordinate }
    ensures { result ≡ float_of units }
{
    units as f32 / 1024.0
}
