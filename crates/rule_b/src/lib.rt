// Rule (b) for one leg: its steps and its bands are walked once, forward in time, where they stand in the two files.
#![tactic(auto)]

ghost use Rattle.std.specs.Prelude.{◌≡◌, ◌+◌, ◌*◌, ◌≤◌, ◌<◌, length};
ghost use Rattle.plan.specs.Sheet.{value};
ghost use Rattle.sheet_file.specs.InPlace.{steps_at};
ghost use Rattle.rule_b.specs.Rule.{Is, RuleB, InOrder};
ghost use Rattle.leg.specs.Price.{price_of};
ghost use Rattle.rule_b.specs.Held.{first_of, start_or};
ghost use Rattle.rule_b.specs.Cursor.{leg_of, steps_of, Begun, Stepped, Moved, Fresh, Onward, Banded, Covers, LegAsked};

mod cursor;
mod tolls;

use cursor::Cursor;
use leg::{Cents, Minute};
use network::LegInFile;
use sheet_file::SheetPlace;
use tolls::Tolls;

// The minute of the first of `left` steps at a bit; where there is none, one that never comes: see `leg::Minute`.
fn first(sheet: &[u8], at: usize, left: usize) -> Minute
    requires { at + 44 * left ≤ 8 * length sheet.now }
    ensures { result.0 ≡ first_of (steps_at sheet.now at left) }
{
    if left == 0 {
        return Minute(Minute::NEVER);
    }
    Minute(reader::field(sheet, at, 12))
}

impl<'a> Cursor<'a> {
    // Before the first step of a place.
    fn at_start(place: SheetPlace<'a>) -> Cursor<'a>
        ensures { Begun (steps_of place.entry) result }
    {
        let at = place.first();
        let left = place.count();
        let next = first(place.sheet, at, left);
        Cursor {
            sheet: place.sheet,
            at,
            left,
            next,
            price: None,
        }
    }

    // Past the next step.
    fn step(self) -> Cursor<'a>
        requires { 0 < self.left }
        ensures { Stepped self.entry result }
    {
        let price = Cents(reader::field(self.sheet, self.at + 12, 32));
        let at = self.at + 44;
        let left = self.left - 1;
        let next = first(self.sheet, at, left);
        Cursor {
            sheet: self.sheet,
            at,
            left,
            next,
            price: Some(price),
        }
    }

    // Past every step up to a minute: `Tolls::begun` has this loop once more, and says why. That the minute comes is asked, here and below: see `leg::Minute`.
    fn forward(self, minute: Minute) -> Cursor<'a>
        requires { minute.0 < 4096 }
        ensures { Moved minute.0 self.entry result }
    {
        let mut cursor = self;
        // A while: it ends at a minute and not at a count.
        while cursor.next <= minute {
            cursor = cursor.step();
        }
        cursor
    }
}

// The value of a place at a minute, if it has one.
pub fn value_at(place: SheetPlace<'_>, minute: Minute) -> Option<Cents>
    requires { minute.0 < 4096 }
    ensures { value (steps_of place.entry) minute.0 ≡ price_of result }
{
    Cursor::at_start(place).forward(minute).price
}

// Where band k of a leg starts, if it has so many; else at a minute that never comes. `table`'s `band_start` is its twin, and says why.
fn start_of(leg: LegInFile<'_>, count: usize, k: usize) -> Minute
    requires { count ≡ (leg_of leg).count }
    ensures { result.0 ≡ start_or (leg_of leg.entry) k }
{
    if count <= k {
        return Minute(Minute::NEVER);
    }
    leg.start(k)
}

impl<'a> Tolls<'a> {
    // Before the first band of a leg.
    fn at_start(leg: LegInFile<'a>) -> Tolls<'a>
        ensures { Fresh (leg_of leg.entry) result }
    {
        let count = leg.count();
        let next = start_of(leg, count, 0);
        Tolls {
            leg,
            count,
            passed: 0,
            next,
            toll: Cents(0),
        }
    }

    // Past the next band.
    fn step(self) -> Tolls<'a>
        requires { self.passed < self.count }
        ensures { Onward self.entry result }
    {
        let toll = self.leg.toll(self.passed);
        let passed = self.passed + 1;
        let next = start_of(self.leg, self.count, passed);
        Tolls {
            leg: self.leg,
            count: self.count,
            passed,
            next,
            toll,
        }
    }

    // Past every band that has begun at a minute: the loop of `forward` once more. One function for both would be over a trait with the next minute, the step and
    // what a step keeps, and be longer than the two.
    fn begun(self, minute: Minute) -> Tolls<'a>
        requires { InOrder (leg_of self.leg) × Banded (leg_of self.leg) minute.0 self × (minute.0 < 4096) }
        ensures { Banded (leg_of self.entry.leg) minute.0 result × (minute.0 < result.next.0) }
    {
        let mut tolls = self;
        // A while: it ends at a minute and not at a count.
        while tolls.next <= minute {
            tolls = tolls.step();
        }
        tolls
    }
}

// Does the value at the arrival cover the value at the departure and the toll?
pub fn covered(from: Option<Cents>, toll: Cents, to: Option<Cents>) -> bool
    ensures { Is result (Covers (price_of from) (price_of to) toll.0) }
{
    let Some(from) = from else {
        return true;
    };
    let Some(to) = to else {
        return false;
    };
    u64::from(to.0) <= u64::from(from.0) + u64::from(toll.0)
}

// Does the sheet obey rule (b) for a leg, from one place to another, up to the end of the window? (What is asked of leg and latest is asked by `rule_cards` too: a
// struct of both would be made for these calls alone.) Nothing but the value at the arrival changes between two
// steps and two band starts, and that only falls: so the rule is tested at the steps of the place that the leg leaves, and where a band starts.
pub fn leg_obeys(leg: LegInFile<'_>, from: SheetPlace<'_>, to: SheetPlace<'_>) -> bool
    requires { LegAsked (leg_of leg) from.window.latest.0 }
    ensures { Is result (RuleB from.entry.window.latest.0 (leg_of leg.entry) (steps_of from.entry) (steps_of to.entry)) }
{
    let time = leg.time();
    let mut i = Cursor::at_start(from);
    let mut j = Cursor::at_start(to);
    let mut tolls = Tolls::at_start(leg);
    let mut departure = i.next;
    // A while: the next departure is where a step or a band starts, not one minute on.
    while Minute(departure.0 + time.0) <= from.window.latest {
        i = i.forward(departure);
        tolls = tolls.begun(departure);
        let after = departure.0 + time.0;
        let arrival = Minute(after);
        j = j.forward(arrival);
        if !covered(i.price, tolls.toll, j.price) {
            return false;
        }
        departure = i.next.min(tolls.next);
    }
    true
}
