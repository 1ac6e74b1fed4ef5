// The check 1 to 7 of the tables, in number order: each rule runs on what the ones before it left.
ghost use Rattle.std.specs.Prelude.{◌≡◌};
ghost use Rattle.halfedges.specs.Refusals.{told, first};
ghost use Rattle.tables.specs.Tables.{held};
ghost use Rattle.tables.specs.Rules.{misshapen as rules_misshapen};
ghost use Rattle.tables.specs.Check.{pairing, placing, table_checks, returned, check_tables, numbers, checked};
ghost use Rattle.tables.specs.Internal.Relied.{ForPlaces};

use crate::{Tables, fans, rules};
use halfedges::refusal::Refusal;
use halfedges::table::HalfedgeTable;

// What a cage check finds of a cage that it accepts: H, E, F, V and B.
#[derive(Clone, Copy)]
pub struct Checked {
    pub halfedges: usize,
    pub edges: usize,
    pub triangles: usize,
    pub vertices: usize,
    pub borders: usize,
}

// H, E, F, V and B of tables that pass.
pub fn found(twin: &[u32], vertices: usize) -> Checked
    ensures { numbers result ≡ returned twin.now vertices }
{
    Checked {
        halfedges: twin.len(),
        edges: rules::count_edges(twin),
        triangles: twin.len() / 3,
        vertices,
        borders: rules::count_borders(twin),
    }
}

impl Tables<'_> {
    // The check 1 to 7 of any tables.
    pub fn check(&self, vertices: usize) -> Result<Checked, Refusal>
        ensures { checked result ≡ check_tables (held self.now) vertices }
    {
        self.check_for_depth(vertices, 0)?;
        Ok(found(self.twin, vertices))
    }

    // Checks 1 to 7 of any tables, where the depth's limit counts too.
    pub fn check_for_depth(&self, vertices: usize, depth: usize) -> Result<(), Refusal>
        ensures { told result ≡ first (table_checks (held self.now) vertices depth) }
    {
        self.check_pairs(vertices, depth)?;
        self.check_places(vertices)?;
        fans::check_fans(self.twin, self.vert, vertices)
    }

    // Checks 1 to 3 of any tables, where the depth's limit counts too.
    pub fn check_pairs(&self, vertices: usize, depth: usize) -> Result<(), Refusal>
        ensures { told result ≡ first (pairing (held self.now) vertices depth) }
    {
        if self.misshapen() {
            return Err(Refusal::Shape);
        }
        let table = HalfedgeTable {
            halfedges: self.twin.len(),
            edges: 0,
            vertices,
        };
        if table.above_limit(depth) {
            return Err(Refusal::Limit);
        }
        rules::check_twins(self.twin)
    }

    #[tactic(auto, using(std::proofs::lemmas::Bool::Decides::nat_tests), unfolding(crate::specs::Rules::misshapen))]
    fn misshapen(&self) -> bool
        ensures { result ≡ rules_misshapen (held self.now) }
    {
        self.twin.len() == 0
            || self.twin.len() % 3 != 0
            || self.vert.len() != self.twin.len()
            || self.edge.len() != self.twin.len()
    }

    // Rules 4 to 6 of tables that keep 1 to 3.
    pub fn check_places(&self, vertices: usize) -> Result<(), Refusal>
        requires { ForPlaces (held self.now) vertices }
        ensures { told result ≡ first (placing (held self.now) vertices) }
    {
        rules::check_vertices(self.twin, self.vert, vertices)?;
        rules::check_uses(self.vert, vertices)?;
        rules::check_edges(self.twin, self.edge)
    }
}
