// What a caller lends the reader: the three tables, the arrays that a plan's numbers are left in, and those of the index of its roads.
ghost use Rattle.std.specs.Prelude.{◌≡◌};
ghost use Rattle.tables.specs.Index.{IndexCleared, index_room};
ghost use Rattle.tables.specs.Reading.{room, zeros};
ghost use Rattle.tables.specs.Lending.{arrays_of, SameArrays};

// The tables as handed in.
#[derive(Clone, Copy)]
pub struct Tables<'a> {
    pub roads: &'a [u8],
    pub carts: &'a [u8],
    pub paths: &'a [u8],
}

// The arrays of a plan: four numbers a road, two a cart, one a path cell. Where those of a road or cart stand is worked out, `4 * i`: the places of the links, of
// the records and of the carts' paths go along with i, so that chunks would be no plainer.
// A slowest speed of 0 stands for none: memory is fixed, and an `Option` takes twice as much.
// `Drop` alone is derived: what holds `&mut` slices can't be copied or compared.
#[derive(Drop)]
pub struct PlanArrays<'a> {
    pub edges: &'a mut [u32],
    pub speeds: &'a mut [u32],
    pub cells: &'a mut [u32],
}

impl<'a> PlanArrays<'a> {
    // Whether each has room for any plan. That is no fact of the type: callers make one, and it would ask more of them.
    #[tactic(auto, unfolding(crate::specs::Reading::room))]
    pub fn has_room(&self) -> bool
        ensures { result ≡ room (arrays_of self.now) }
    {
        4_096 <= self.edges.len() && 128 <= self.speeds.len() && 8_192 <= self.cells.len()
    }

    // Zeros in every place.
    #[tactic(auto, unfolding(crate::specs::Reading::zeros))]
    pub fn clear(&mut self)
        ensures left { arrays_of self.new ≡ zeros (arrays_of self.old) }
        ensures same { SameArrays self.old self.new }
    {
        self.edges.fill(0);
        self.speeds.fill(0);
        self.cells.fill(0);
    }
}

// The arrays of an index: each remainder's last road, and to each road the one of its remainder before it; 0 stands for none, as in those of a plan.
// Two arrays, as there is no heap for a map. Callers may lend arrays of any length: a type of 1,024 places would ask more of them.
#[derive(Drop)]
pub struct RoadIndex<'a> {
    pub heads: &'a mut [u16],
    pub nexts: &'a mut [u16],
}

impl<'a> RoadIndex<'a> {
    // Whether it is one for a plan: arrays of any other length stand for none.
    #[tactic(auto, unfolding(crate::specs::Index::index_room))]
    pub fn has_room(&self) -> bool
        ensures { result ≡ index_room self.now }
    {
        self.heads.len() == 1024 && self.nexts.len() == 1024
    }

    // Zeros in every place: the index of no road.
    pub fn clear(&mut self)
        ensures { IndexCleared self.old self.new }
    {
        self.heads.fill(0);
        self.nexts.fill(0);
    }
}
