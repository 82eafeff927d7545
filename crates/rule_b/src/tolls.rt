// A place in a leg's bands.
ghost use Rattle.network.specs.InFile.{leg_at};
ghost use Rattle.rule_b.specs.Held.{Passed};

use leg::{Cents, Minute};
use network::LegInFile;

// How many bands the leg has, how many are passed, and where the next starts; and the toll of the last that was passed.
#[derive(Clone, Copy)]
pub struct Tolls<'a> {
    pub leg: LegInFile<'a>,
    pub count: usize,
    pub passed: usize,
    pub next: Minute,
    pub toll: Cents,
    // The bands are the leg's, and `next` is where the first that is not passed starts.
    pub ghost stands: { Passed (leg_at leg.net.now leg.at) count passed next.0 },
}
