// A plan file that was judged, with what it says but for its rides.
ghost use Rattle.std.specs.Prelude.{◌≡◌, ◌<◌};
ghost use Rattle.plan_reader.specs.InPlace.{ride_at, file_at, Says, Headed};
ghost use Rattle.plan_reader.specs.Unique.{says_once, headed_once};

use leg::{Cents, Minute};
use plan_file::Query;

// With "none" it states no cost.
#[derive(Clone, Copy)]
pub struct SoundPlan<'a> {
    pub bytes: &'a [u8],
    pub stated: Option<Cents>,
    pub query: Query,
    pub legs: usize,
    // The bytes are a plan file that says what it may.
    pub ghost says: { Says bytes.now (file_at bytes.now) } by { says_once bytes.now (file_at bytes.now) },
    // This is what they say.
    pub ghost headed: { Headed bytes.now stated query legs } by { headed_once bytes.now stated query legs },
}

impl<'a> SoundPlan<'a> {
    pub const EDITION: u32 = 1;

    pub const MOST_LEGS: usize = 63;

    // Ride k, counted from the first: its leg, and when that is left for.
    pub fn ride(&self, k: usize) -> (u32, Minute)
        requires { k < self.now.legs }
        ensures { (result.0 ≡ (ride_at self.now.bytes.now k).leg) × (result.1.0 ≡ (ride_at self.now.bytes.now k).leave) }
    {
        crate::ride_at(self.bytes, k)
    }
}
