// A place in a list of steps.
ghost use Rattle.rule_b.specs.Held.{Held};

use leg::{Cents, Minute};

// The bit of the next step, how many are left, and its minute; and the cost of the last step passed, if there is one.
#[derive(Clone, Copy)]
pub struct Cursor<'a> {
    pub sheet: &'a [u8],
    pub at: usize,
    pub left: usize,
    pub next: Minute,
    pub price: Option<Cents>,
    // The steps that are left lie in the file, and `next` is the minute of the first.
    pub ghost held: { Held sheet.now at left next.0 },
}
