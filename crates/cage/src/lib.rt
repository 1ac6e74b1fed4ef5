// The cage check: any four tables, refusals 1 to 8; with a crease table 15 too, and for refining 14.
#![tactic(auto)]

ghost use Rattle.std.specs.Prelude.{◌≡◌, ltb, nat_abs, length};
ghost use Rattle.laws.specs.Below.{any};
ghost use Rattle.halfedges.specs.Refusals.{POINT, told, given_at, first};
ghost use Rattle.tables.specs.Tables.{held};
ghost use Rattle.tables.specs.Check.{checked};
ghost use Rattle.points.specs.Operations.{vertices, unshaped as operations_unshaped, most_coordinate, out_of_range, cage_checks, refine_checks, check_creased};

use creases::check as creased;
use halfedges::refusal::Refusal;
use points::rules::{LEAST_COORDINATE, MOST_COORDINATE};
use points::weights::Weight;
use tables::check::Checked;
use tables::{Tables, check};
use valences::check_valences;

// A cage: its three tables, its points, and a number of each edge.
#[derive(Clone, Copy)]
pub struct Cage<'a> {
    pub tables: Tables<'a>,
    pub points: &'a [i32],
    pub creases: &'a [u8],
}

impl Cage<'_> {
    // V.
    pub fn vertices(&self) -> usize
        ensures { result ≡ vertices self.now.points.now }
    {
        self.points.len() / 3
    }

    // The cage check: checks 1 to 8 and 15 of any tables.
    pub fn check(&self) -> Result<Checked, Refusal>
        ensures { checked result ≡ check_creased (held self.now.tables) self.now.creases.now self.now.points.now }
    {
        self.check_for_refining(0, Weight::Short)?;
        Ok(check::found(self.tables.twin, self.vertices()))
    }

    // The same checks, where the depth's limit counts too, and 14 by the weight chosen.
    pub fn check_for_refining(&self, depth: usize, weight: Weight) -> Result<(), Refusal>
        ensures { told result
            ≡ first (refine_checks weight (held self.now.tables) self.now.creases.now self.now.points.now depth) }
    {
        if self.points.len() % 3 != 0 {
            return Err(Refusal::Shape);
        }
        let vertices = self.vertices();
        creased::check_for_depth(&self.tables, self.creases, vertices, depth)?;
        check_valences(weight, self.tables.twin, self.tables.vert, vertices)?;
        check_points(self.points)
    }
}

// Checks 1 to 8 of any tables without creases, as writing form 1 has them. No weight is chosen here, so none for which 14 would be given.
pub fn check_plain(tables: &Tables, points: &[i32]) -> Result<(), Refusal>
    ensures { told result ≡ first (cage_checks (held tables.now) points.now 0) }
{
    if points.len() % 3 != 0 {
        return Err(Refusal::Shape);
    }
    tables.check_for_depth(points.len() / 3, 0)?;
    check_points(points)
}

// 1, where VERT and points are all there is: there is no triangle, or a table ends within a triangle or within a point.
#[tactic(auto, using(std::proofs::lemmas::Bool::Decides::nat_tests), unfolding(points::specs::Operations::unshaped))]
pub fn unshaped(vert: &[u32], points: &[i32]) -> bool
    ensures { result ≡ operations_unshaped vert.now points.now }
{
    vert.len() == 0 || vert.len() % 3 != 0 || points.len() % 3 != 0
}

// Rule 8: every coordinate is in range. Most tables are passed without looking for a place.
pub fn check_points(points: &[i32]) -> Result<(), Refusal>
    ensures { told result ≡ given_at (length points.now) (out_of_range points.now) POINT }
{
    if any_out_of_range(points) {
        return find_out_of_range(points);
    }
    Ok(())
}

// Whether some coordinate is out of range, found without a branch.
fn any_out_of_range(points: &[i32]) -> bool
    ensures { result ≡ any (length points.now) (out_of_range points.now) }
{
    let mut found = false;
    for coordinate in points {
        found = found | out_of_range(*coordinate);
    }
    found
}

// The first coordinate that is out of range.
fn find_out_of_range(points: &[i32]) -> Result<(), Refusal>
    ensures { told result ≡ given_at (length points.now) (out_of_range points.now) POINT }
{
    for place in 0..points.len() {
        if out_of_range(points[place]) {
            return Err(Refusal::Point(place));
        }
    }
    Ok(())
}

// Whether a coordinate is below or above the range.
fn out_of_range(coordinate: i32) -> bool
    ensures { result ≡ ltb most_coordinate (nat_abs coordinate) }
{
    coordinate < LEAST_COORDINATE || MOST_COORDINATE < coordinate
}
