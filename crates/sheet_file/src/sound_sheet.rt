// A sheet that was judged for a window, with the bit at which each place's count of steps stands.
ghost use Rattle.std.specs.Prelude.{◌≡◌, ◌<◌, get_or};
ghost use Rattle.sheet_file.specs.Asked.{Placed};
ghost use Rattle.sheet_file.specs.Unique.{placed_once};
ghost use Rattle.sheet_file.specs.Window.{of_window};

use crate::SheetPlace;
use leg::Window;

// The index has a fixed size, and no heap: a network has at most 64 places.
#[derive(Clone, Copy)]
pub struct SoundSheet<'a> {
    pub sheet: &'a [u8],
    pub places: u32,
    pub window: Window,
    pub index: [u32; 64],
    // Every place's steps are as described, and lie in the file.
    pub ghost placed: { Placed sheet.now places (of_window window) index } by { placed_once sheet.now places (of_window window) index },
}

impl<'a> SoundSheet<'a> {
    // One of its places.
    pub fn place(&self, p: usize) -> SheetPlace<'a>
        requires { p < self.now.places }
        ensures { (result.sheet ≡ self.now.sheet) × (result.window ≡ self.now.window) × (result.bit ≡ get_or self.now.index p 0) }
    {
        SheetPlace {
            sheet: self.sheet,
            bit: self.index[p],
            window: self.window,
        }
    }
}
