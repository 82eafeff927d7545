// The plan file: its fields are put straight into lent bytes, the head first and the rides in any order.
#![tactic(auto)]

ghost use Rattle.std.specs.Prelude.{◌≡◌, ◌+◌, ◌*◌, ◌≤◌, ◌<◌, length};
ghost use Rattle.plan_file.specs.Puts.{Puts};
ghost use Rattle.plan_file.specs.PlanFile.{InWidth, verdict_of, query_of, window_of, head_fields, ride_fields, ride_of};
ghost use Rattle.plan.specs.Network.{asking};
ghost use Rattle.plan_file.specs.Known.{known};

use leg::{Cents, Minute, Window};

// What a plan file says: "none", that there is no plan, or a plan. Their numbers are the field's.
#[derive(Clone, Copy)]
pub enum Verdict {
    NoPlan = 0,
    Plan = 1,
}

impl Verdict {
    // A method and no `From`: its name says which number of the verdict it is.
    fn number(self) -> u32
        ensures { result ≡ verdict_of self }
    {
        self as u32
    }
}

// A query: from where to where, not before when, and when at the latest.
#[derive(Clone, Copy)]
pub struct Query {
    pub start: u32,
    pub end: u32,
    pub earliest: Minute,
    pub latest: Minute,
}

impl Query {
    // The query that four numbers make.
    pub fn new(start: u32, end: u32, earliest: u32, latest: u32) -> Query
        ensures { query_of result ≡ asking start end earliest latest }
    {
        Query {
            start,
            end,
            earliest: Minute(earliest),
            latest: Minute(latest),
        }
    }

    // From when to when.
    pub fn window(self) -> Window
        ensures { result ≡ window_of self }
    {
        Window {
            earliest: self.earliest,
            latest: self.latest,
        }
    }

    // Are start and end two of so many places, and the times minutes of the clock?
    pub fn known(self, places: u32) -> bool
        ensures { result ≡ known places (query_of self) }
    {
        self.start < places
            && self.end < places
            && self.earliest <= Minute(Minute::LAST)
            && self.latest <= Minute(Minute::LAST)
    }
}

// Everything before the rides. A verdict and a cost, and no optional cost in place of both: the promise covers each pair of them. At fixed bits, and by no writer that
// holds its bit: `Puts` speaks of the bit, and a ride is put where its number says, not behind the last one.
pub fn put_head(out: &mut [u8], verdict: Verdict, query: Query, cost: Cents, legs: u32)
    requires { (12 ≤ length out.old) × InWidth query × (legs < 4096) }
    ensures { Puts out.old out.new 0 (head_fields (verdict_of verdict) (query_of query) cost.0 legs) }
{
    let verdict = verdict.number();
    let Query {
        earliest,
        latest,
        ..
    } = query;
    bits::put(out, 0, 8, 1);
    bits::put(out, 8, 1, verdict);
    bits::put(out, 9, 6, query.start);
    bits::put(out, 15, 6, query.end);
    bits::put(out, 21, 12, earliest.0);
    bits::put(out, 33, 12, latest.0);
    bits::put(out, 45, 32, cost.0);
    bits::put(out, 77, 12, legs);
}

// The ride that stands at place `index`, counted from the first: its leg and its departure as two values, since docs/PROMISES.md names this function. That the minute
// comes, here and in `InWidth`: see `leg::Minute`.
pub fn put_ride(out: &mut [u8], index: u32, leg: u32, departure: Minute)
    requires { (leg < 512) × (departure.0 < 4096) × (index < 4096) × (89 + 21 * (index + 1) ≤ 8 * length out.old) }
    ensures { Puts out.old out.new (89 + 21 * index) (ride_fields (ride_of leg departure.0)) }
{
    let at = 89 + 21 * index as usize;
    bits::put(out, at, 9, leg);
    bits::put(out, at + 9, 12, departure.0);
}
