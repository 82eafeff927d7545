// A sheet file, judged in the order of its fields: sound or not, and where each place's steps stand.
#![tactic(auto)]

ghost use Rattle.std.specs.Prelude.{◌≤◌};
ghost use Rattle.source.specs.Source.{file_of};
ghost use Rattle.sheet_file.specs.SheetFile.{top, sheet_of};
ghost use Rattle.sheet_file.specs.InPlace.{Tested};
ghost use Rattle.sheet_file.specs.Judged.{Judged};
ghost use Rattle.sheet_file.specs.Window.{below, StepIs, StepsAre, PlaceIs, of_window};

mod sheet_place;
mod sound_sheet;

use leg::{Cents, Minute, Window};
pub use sheet_place::SheetPlace;
pub use sound_sheet::SoundSheet;

// A place has at most one step a minute.
const MOST_STEPS: usize = Minute::COUNT as usize;

// A step of a sheet: from its minute on a place has this value.
#[derive(Clone, Copy)]
pub struct Step {
    pub minute: Minute,
    pub price: Cents,
}

// One step, if it is sound: its minute from `low` to `latest`, its cost below that of the last step, if there is one. (Why a bit has a bound, here and below: see `source`.)
fn step_from(
    sheet: &[u8],
    at: usize,
    low: Minute,
    latest: Minute,
    last: Option<Cents>,
) -> Option<Step>
    requires { at ≤ 9000000 }
    ensures { StepIs sheet.now at low.0 latest.0 (below last) result }
{
    if !reader::there(sheet, at, 44) {
        return None;
    }
    let (minute, price) = reader::pair(sheet, at, 12, 32);
    let minute = Minute(minute);
    let price = Cents(price);
    if minute < low {
        return None;
    }
    if latest < minute {
        return None;
    }
    if last.is_some_and(|last| last <= price) {
        return None;
    }
    Some(Step { minute, price })
}

// The bit after the steps of a place, which begin at bit `at`, if they are sound. A sheet, a bit and a window are three, here and in `place_from`: a `SheetPlace` keeps
// that its steps are sound, which is judged here.
fn steps_from(sheet: &[u8], at: usize, count: usize, window: Window) -> Option<usize>
    requires { (at ≤ 8500000) × (count ≤ 2880) }
    ensures { StepsAre sheet.now at count window.earliest.0 window.latest.0 result }
{
    let mut low = window.earliest;
    let mut last = None;
    for k in 0..count {
        let step = step_from(sheet, at + 44 * k, low, window.latest, last)?;
        let after = step.minute.0 + 1;
        low = Minute(after);
        last = Some(step.price);
    }
    Some(at + 44 * count)
}

// The bit after one place, if it is sound: the number of its steps, then the steps.
fn place_from(sheet: &[u8], at: usize, window: Window) -> Option<usize>
    requires { at ≤ 8200000 }
    ensures { PlaceIs sheet.now at (of_window window) result }
{
    if !reader::there(sheet, at, 12) {
        return None;
    }
    let count = reader::field(sheet, at, 12) as usize;
    if MOST_STEPS < count {
        return None;
    }
    steps_from(sheet, at + 12, count, window)
}

// Edition 1, and the network's number of places.
fn top_sound(sheet: &[u8], places: u32) -> bool
    ensures { Tested result (top places (file_of sheet.now) 0) tt 15 }
{
    if !reader::there(sheet, 0, 15) {
        return false;
    }
    reader::field(sheet, 0, 8) == 1 && reader::field(sheet, 8, 7) == places
}

// A whole sheet file, if it is sound. By index: the definition speaks of the whole index, and of a part lent to `iter_mut` each fact would have to be led back to it.
pub fn sheet_from<'a>(sheet: &'a [u8], places: u32, window: Window) -> Option<SoundSheet<'a>>
    requires { places ≤ 64 }
    ensures { Judged sheet.now places window (sheet_of places (of_window window) sheet.now) result }
{
    if !top_sound(sheet, places) {
        return None;
    }
    let mut index = [0; 64];
    let mut place = 15;
    for k in 0..places as usize {
        index[k] = place as u32;
        place = place_from(sheet, place, window)?;
    }
    if !reader::ends(sheet, place) {
        return None;
    }
    Some(SoundSheet {
        sheet,
        places,
        window,
        index,
    })
}
