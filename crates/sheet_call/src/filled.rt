// A filled table: a row of w cells for each place, the first of them of minute earliest. The width and no `Window`: each row is cut by it.
ghost use Rattle.std.specs.Prelude.{◌≡◌, ◌+◌, ◌≤◌, ◌<◌};
ghost use Rattle.rows.specs.Whole.{row_of};
ghost use Rattle.sheet_call.specs.Parts.{Table};

use leg::Minute;

#[derive(Clone, Copy)]
pub struct Filled<'a> {
    pub cells: &'a [u32],
    pub earliest: Minute,
    pub w: usize,
    pub places: u32,
    ghost table: { Table cells.now w places },
    // The window ends within the clock.
    ghost clock: { earliest.0 + w ≤ 2880 },
}

impl<'a> Filled<'a> {
    // The row of a place. By its number and not by `chunks_exact`: the edit `same_row_for_all` is about which row a place has.
    pub fn row(&self, p: u32) -> &'a [u32]
        requires { p < self.now.places }
        ensures { result.now ≡ row_of self.now.cells.now self.now.w p }
    {
        let start = p as usize * self.w;
        &self.cells[start..start + self.w]
    }
}
