// The filled table of a query: a row for each place, and in it a cell for each minute of the query's window.
ghost use Rattle.std.specs.Prelude.{◌≡◌, ◌≤◌};
ghost use Rattle.plan.specs.Table.{cell_at};
ghost use Rattle.plan_file.specs.PlanFile.{query_of};
ghost use Rattle.walk.specs.Cells.{InTable, FirstLike};

use leg::Minute;
use plan_file::Query;

#[derive(Clone, Copy)]
pub struct Table<'a> {
    pub cells: &'a [u32],
    pub query: Query,
}

impl<'a> Table<'a> {
    // The cell of a place and a minute.
    pub fn cell(&self, place: u32, minute: Minute) -> u32
        requires { InTable self.now.cells.now (query_of self.now.query) place minute.0 }
        ensures { result ≡ cell_at (query_of self.now.query) self.now.cells.now place minute.0 }
    {
        let width = self.query.window().columns();
        let at = (place * width + (minute.0 - self.query.earliest.0)) as usize;
        self.cells[at]
    }

    // The first minute at which the place has the cell that it has at `minute`, the digits below `unit` aside: with 64 the cost alone, with 1 the whole cell. A number, since
    // the promise holds of any (`FirstLike`). A `for` and no `find`: see `Walk::find_leg`.
    pub fn first(&self, place: u32, minute: Minute, unit: u32) -> Minute
        requires { (1 ≤ unit) × InTable self.now.cells.now (query_of self.now.query) place minute.0 }
        ensures { FirstLike (query_of self.now.query) (cell_at (query_of self.now.query) self.now.cells.now)
            place unit minute.0 result.0 }
    {
        let goal = self.cell(place, minute) / unit;
        for t in self.query.earliest.0..minute.0 {
            if self.cell(place, Minute(t)) / unit == goal {
                return Minute(t);
            }
        }
        minute
    }
}
