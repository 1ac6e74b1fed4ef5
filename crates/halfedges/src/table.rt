// A level's counts, its constants, and the count question.
ghost use Rattle.std.specs.Prelude.{◌≡◌, ◌≤◌, ◌<◌, ◌^◌};
ghost use Rattle.halfedges.specs.Cage.{NEXT, PREV, most_halfedges, most_depth};
ghost use Rattle.halfedges.specs.Refusals.{told};
ghost use Rattle.halfedges.specs.Internal.Counts.{AtMost, counts_within, refused_count};
ghost use Rattle.halfedges.specs.Counts.{finer as counts_finer, counts_at, levels as counts_levels, room_h, room_v, room_e, no_levels, count_shape, above_limit, count_question, counted};

use crate::refusal::Refusal;

// The counts of one level's halfedge table: H, E and V.
#[derive(Clone, Copy)]
pub struct HalfedgeTable {
    pub halfedges: usize,
    pub edges: usize,
    pub vertices: usize,
}

impl HalfedgeTable {
    // What stands in TWIN where there is no twin.
    pub const NO_TWIN: u32 = 4294967295;

    // The most halfedges that a cage has.
    pub const MOST_HALFEDGES: usize = 3072;

    // The most vertices that a cage has.
    pub const MOST_VERTICES: usize = 2048;

    // The deepest level.
    pub const MOST_DEPTH: usize = 6;

    // The next halfedge of the same triangle.
    pub fn next(halfedge: usize) -> usize
        requires { halfedge < 2 ^ 63 }
        ensures { result ≡ NEXT halfedge }
    {
        if halfedge % 3 == 2 {
            halfedge - 2
        } else {
            halfedge + 1
        }
    }

    // The previous halfedge of the same triangle.
    pub fn previous(halfedge: usize) -> usize
        requires { halfedge < 2 ^ 63 }
        ensures { result ≡ PREV halfedge }
    {
        if halfedge % 3 == 0 {
            halfedge + 2
        } else {
            halfedge - 1
        }
    }

    // The next level's counts.
    pub fn finer(self) -> HalfedgeTable
        requires { AtMost (2 ^ 60) self }
        ensures { result ≡ counts_finer self }
    {
        HalfedgeTable {
            halfedges: 4 * self.halfedges,
            edges: 2 * self.edges + self.halfedges,
            vertices: self.vertices + self.edges,
        }
    }

    // The counts of levels 0 to depth, and the room that they take.
    pub fn levels(self, depth: usize) -> Levels
        requires { (AtMost most_halfedges self) × (depth ≤ most_depth) }
        ensures { result ≡ counts_levels self depth }
    {
        let one = self.within(1, depth);
        let two = self.within(2, depth);
        let three = self.within(3, depth);
        let four = self.within(4, depth);
        let five = self.within(5, depth);
        let six = self.within(6, depth);
        Levels {
            halfedges: [
                self.halfedges,
                one.halfedges,
                two.halfedges,
                three.halfedges,
                four.halfedges,
                five.halfedges,
                six.halfedges,
            ],
            edges: [
                self.edges,
                one.edges,
                two.edges,
                three.edges,
                four.edges,
                five.edges,
                six.edges,
            ],
            vertices: [
                self.vertices,
                one.vertices,
                two.vertices,
                three.vertices,
                four.vertices,
                five.vertices,
                six.vertices,
            ],
            halfedge_room: self.halfedge_room(depth),
            vertex_room: self.vertex_room(depth),
            edge_room: self.edge_room(depth),
        }
    }

    // The counts of a level, zero past the depth.
    fn within(self, level: usize, depth: usize) -> HalfedgeTable
        requires { (AtMost most_halfedges self) × (level ≤ most_depth) }
        ensures { result ≡ counts_within self depth level }
    {
        if depth < level {
            return HalfedgeTable {
                halfedges: 0,
                edges: 0,
                vertices: 0,
            };
        }
        self.at(level)
    }

    // The counts of a level, by equations 4 to 6 of the paper. F is a third of H, and is taken last, where it is whole.
    pub fn at(self, level: usize) -> HalfedgeTable
        requires { (AtMost most_halfedges self) × (level ≤ most_depth) }
        ensures { result ≡ counts_at self level }
    {
        let halfedges = self.halfedges;
        let edges = self.edges;
        let vertices = self.vertices;
        let power = 1 << level;
        let square = power * power;
        HalfedgeTable {
            halfedges: square * halfedges,
            edges: power * edges + (square - power) / 2 * halfedges,
            vertices: vertices + (power - 1) * edges + (square + 2 - 3 * power) / 2 * halfedges / 3,
        }
    }

    // The sum of H over levels 0 to depth.
    fn halfedge_room(self, depth: usize) -> usize
        requires { (AtMost most_halfedges self) × (depth ≤ most_depth) }
        ensures { result ≡ room_h self depth }
    {
        let halfedges = self.halfedges;
        let power = 1 << depth;
        (4 * (power * power) - 1) * halfedges / 3
    }

    // The sum of V over levels 0 to depth.
    fn vertex_room(self, depth: usize) -> usize
        requires { (AtMost most_halfedges self) × (depth ≤ most_depth) }
        ensures { result ≡ room_v self depth }
    {
        let halfedges = self.halfedges;
        let edges = self.edges;
        let vertices = self.vertices;
        let power = 1 << depth;
        let square = power * power;
        (depth + 1) * vertices
            + (2 * power - (depth + 2)) * edges
            + (2 * square + 3 * depth + 7 - 9 * power) * halfedges / 9
    }

    // The sum of E over levels 0 to depth.
    fn edge_room(self, depth: usize) -> usize
        requires { (AtMost most_halfedges self) × (depth ≤ most_depth) }
        ensures { result ≡ room_e self depth }
    {
        let halfedges = self.halfedges;
        let edges = self.edges;
        let power = 1 << depth;
        let square = power * power;
        (2 * power - 1) * edges + (2 * square + 1 - 3 * power) / 3 * halfedges
    }

    // The count question, of any numbers.
    pub fn count(self, depth: usize) -> Result<Levels, Refusal>
        ensures { counted result ≡ count_question self depth }
    {
        if self.misshapen() {
            return Err(Refusal::Shape);
        }
        if self.above_limit(depth) {
            return Err(Refusal::Limit);
        }
        Ok(self.levels(depth))
    }

    // No cage has these counts: refusal 1 of the count question.
    #[tactic(auto, using(std::proofs::lemmas::Bool::Decides::nat_tests), unfolding(crate::specs::Counts::count_shape))]
    fn misshapen(self) -> bool
        ensures { result ≡ count_shape self }
    {
        // the last is 2E < H, in numbers that cannot wrap
        self.halfedges == 0
            || self.halfedges % 3 != 0
            || self.vertices == 0
            || self.halfedges < self.edges
            || self.edges < self.halfedges - self.edges
    }

    // Refusal 2: H, V or the depth is above its limit.
    #[tactic(auto, using(std::proofs::lemmas::Bool::Decides::nat_tests), unfolding(crate::specs::Counts::above_limit))]
    pub fn above_limit(self, depth: usize) -> bool
        ensures { result ≡ above_limit self.halfedges self.vertices depth }
    {
        HalfedgeTable::MOST_HALFEDGES < self.halfedges
            || HalfedgeTable::MOST_VERTICES < self.vertices
            || HalfedgeTable::MOST_DEPTH < depth
    }
}

// H, E and V of the seven levels, and the room: the sums of H, of V and of E.
#[derive(Clone, Copy)]
pub struct Levels {
    pub halfedges: [usize; 7],
    pub edges: [usize; 7],
    pub vertices: [usize; 7],
    pub halfedge_room: usize,
    pub vertex_room: usize,
    pub edge_room: usize,
}

impl Levels {
    // What stands where the counts would, of a refusal: zeros.
    pub fn none() -> Levels
        ensures { result ≡ no_levels }
    {
        Levels {
            halfedges: [0; 7],
            edges: [0; 7],
            vertices: [0; 7],
            halfedge_room: 0,
            vertex_room: 0,
            edge_room: 0,
        }
    }
}
