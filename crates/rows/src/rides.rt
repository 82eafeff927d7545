// Rides from some columns of a row.
ghost use Rattle.std.specs.Prelude.{◌≡◌, ◌≤◌, ◌<◌, length};

// From each of the columns from..until: all take the same number of columns, and add the same to the cell that they leave.
#[derive(Clone, Copy)]
pub struct Rides<'a> {
    pub row: &'a [u32],
    pub from: usize,
    pub until: usize,
    pub time: usize,
    pub add: u64,
    pub ghost within: { (from ≤ until) × (until ≤ length row.now) },
    // With a cell it makes a sum of 64 bits.
    pub ghost small: { add < 1000000000000 },
}

impl<'a> Rides<'a> {
    // Those of them from the columns from..until.
    pub fn between(self, from: usize, until: usize) -> Rides<'a>
        requires { (from ≤ until) × (until ≤ self.until) }
        ensures { (result.row ≡ self.entry.row) × (result.from ≡ from) × (result.until ≡ until) × (result.time ≡ self.entry.time) × (result.add ≡ self.entry.add) }
    {
        Rides {
            row: self.row,
            from,
            until,
            time: self.time,
            add: self.add,
        }
    }
}
