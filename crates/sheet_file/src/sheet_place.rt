// A place of a sheet that was judged: its steps are read where they stand.
ghost use Rattle.std.specs.Prelude.{◌≡◌, ◌+◌};
ghost use Rattle.sheet_file.specs.InPlace.{count_at};
ghost use Rattle.sheet_file.specs.Asked.{PlaceAsked};
ghost use Rattle.sheet_file.specs.Unique.{place_once};
ghost use Rattle.sheet_file.specs.Window.{of_window};

use leg::Window;

#[derive(Clone, Copy)]
pub struct SheetPlace<'a> {
    pub sheet: &'a [u8],
    // Where its count of steps stands.
    pub bit: u32,
    pub window: Window,
    // Its steps are as described, and lie in the file.
    pub ghost asked: { PlaceAsked sheet.now bit (of_window window) } by { place_once sheet.now bit (of_window window) },
}

impl<'a> SheetPlace<'a> {
    // How many steps it has.
    pub fn count(self) -> usize
        ensures { result ≡ count_at self.entry.sheet.now self.entry.bit }
    {
        reader::field(self.sheet, self.bit as usize, 12) as usize
    }

    // The bit at which its first step stands.
    pub fn first(self) -> usize
        ensures { result ≡ self.entry.bit + 12 }
    {
        self.bit as usize + 12
    }
}
