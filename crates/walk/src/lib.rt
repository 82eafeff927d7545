// The walk back: from a filled table the named plan is found ride by ride from the end, and put into the plan file as it is found.
#![tactic(auto)]

ghost use Rattle.std.specs.Prelude.{◌≡◌, ◌≢◌, ◌+◌, ◌*◌, ◌/◌, ◌%◌, ◌≤◌, ◌<◌, length};
ghost use Rattle.plan_file.specs.PlanFile.{InWidth, query_of, plan_bytes, none_file, FileOf};
ghost use Rattle.chart.specs.Net.{leg_in};
ghost use Rattle.walk.specs.Cells.{InTable};
ghost use Rattle.walk.specs.Walk.{theory_of, asked_of, cells_of, Tells, ReadsFrom, Departing, Arriving, Hops, RoomFor, Walked, Ending, NamedFile};

mod table;

use chart::Tariff;
use leg::{Cents, Leg, Minute};
use plan_file::{Query, Verdict};
pub use table::Table;

// A ride that was found: the leg, where it leaves from, and when.
#[derive(Clone, Copy)]
pub struct Hop {
    pub leg: u32,
    pub from: u32,
    pub departure: Minute,
}

// What the walk goes by: a network's legs, and the filled table of a query. That the table is right stays in the clauses: as a ghost field its proof does not close,
// since it names a plan for each cell, and a type keeps only what has one proof.
#[derive(Clone, Copy)]
pub struct Walk<'a> {
    pub tariff: Tariff<'a>,
    pub table: Table<'a>,
}

// A place and a minute stay two values: one of both would hide whether the minute is an arrival or a departure.
impl<'a> Walk<'a> {
    // Whether a leg that arrives at this place and minute, with the cell that it leaves from, gives the cell there.
    fn explains(&self, leg: Leg, place: u32, arrival: Minute) -> bool
        requires { (leg.count ≤ 8) × (leg.time.0 ≤ 2879) × InTable self.now.table.cells.now (asked_of self.now) place arrival.0
            × ReadsFrom leg self.now.table.cells.now (asked_of self.now) }
        ensures { Tells result (asked_of self.now) (cells_of self.now) leg place arrival.0 }
    {
        if leg.to != place {
            return false;
        }
        if arrival < Minute(self.table.query.earliest.0 + leg.time.0) {
            return false;
        }
        let departure = Minute(arrival.0 - leg.time.0);
        let goal = self.table.cell(place, arrival);
        let source = self.table.cell(leg.from, departure);
        let toll = leg.toll_at(departure);
        u64::from(source) + rows::adds(toll) == u64::from(goal)
    }

    // The same of the leg of a number, which is decoded only if it goes to the place.
    fn explains_at(&self, number: usize, place: u32, arrival: Minute) -> bool
        requires { (number < self.now.tariff.size.legs) × InTable self.now.table.cells.now (asked_of self.now) place arrival.0
            × ReadsFrom (leg_in self.now.tariff.net.now number) self.now.table.cells.now (asked_of self.now) }
        ensures { Tells result (asked_of self.now) (cells_of self.now) (leg_in self.now.tariff.net.now number) place arrival.0 }
    {
        if self.tariff.leg_in_file(number).to() != place {
            return false;
        }
        self.explains(self.tariff.leg(number), place, arrival)
    }

    // The lowest leg that arrives at this place and minute and explains the cell there. A `for` and no `find`, here and in `Table::first`: `find` wants a proof of what its
    // closure asks of each number, and is longer with it.
    fn find_leg(&self, place: u32, arrival: Minute) -> Hop
        requires { Arriving self.now place arrival.0 × (cells_of self.now place arrival.0 ≢ 0) }
        ensures { Hops (theory_of self.now) (asked_of self.now) (cells_of self.now) place arrival.0 result }
    {
        for k in 0..self.tariff.size.legs {
            if self.explains_at(k, place, arrival) {
                let leg = self.tariff.leg(k);
                return Hop {
                    leg: k as u32,
                    from: leg.from,
                    departure: Minute(arrival.0 - leg.time.0),
                };
            }
        }
        unreachable!()
    }

    // ARRIVAL TO LEG. At the first minute at which a place has its cell: the ride that arrives there is put in its place,
    // and the walk goes on from its departure.
    #[cycle(arrival_to_leg_departure_to_standing)]
    fn arrival_to_leg(&self, out: &mut [u8], place: u32, arrival: Minute)
        requires { Arriving self.now place arrival.0 × RoomFor out.old (cells_of self.now place arrival.0) }
        ensures { Walked (theory_of self.now) (asked_of self.now) (cells_of self.now) place arrival.0 out.old out.new }
    {
        let legs = rows::legs_of(self.table.cell(place, arrival));
        if 0 < legs {
            let hop = self.find_leg(place, arrival);
            plan_file::put_ride(out, legs - 1, hop.leg, hop.departure);
            self.departure_to_standing(out, hop.from, hop.departure);
        }
    }

    // DEPARTURE TO EARLIEST STANDING. The place had the same cell since its first minute: the ride before arrived there then.
    #[cycle(arrival_to_leg_departure_to_standing)]
    fn departure_to_standing(&self, out: &mut [u8], place: u32, departure: Minute)
        requires { Departing self.now place departure.0 × RoomFor out.old (cells_of self.now place departure.0) }
        ensures { Walked (theory_of self.now) (asked_of self.now) (cells_of self.now) place departure.0 out.old out.new }
    {
        let arrival = self.table.first(place, departure, 1);
        self.arrival_to_leg(out, place, arrival);
    }

    // The file of the named plan, from the first minute at which the end has the least cost.
    pub fn write_plan(&self, file: &mut [u8], arrival: Minute)
        requires { Ending self.now arrival.0
            × (length file.old ≡ plan_bytes (cells_of self.now self.now.table.query.end arrival.0 % 64)) }
        ensures { NamedFile (theory_of self.now) (asked_of self.now) file.new }
    {
        let query = self.table.query;
        let here = self.table.cell(query.end, arrival);
        bits::clear(file);
        plan_file::put_head(
            file,
            Verdict::Plan,
            query,
            rows::cost_of(here),
            rows::legs_of(here),
        );
        self.arrival_to_leg(file, query.end, arrival);
    }
}

// The file that says "none".
pub fn write_none(file: &mut [u8], query: Query)
    requires { InWidth query × (length file.old ≡ 12) }
    ensures { FileOf (none_file (query_of query)) file.new }
{
    bits::clear(file);
    plan_file::put_head(file, Verdict::NoPlan, query, Cents(0), 0);
}
