// The rides along one leg: who boards it, from which row and which of its columns on, and the row of the place that it goes to.
ghost use Rattle.std.specs.Prelude.{◌≡◌, ◌+◌, ◌*◌, ◌-◌, ◌≤◌, ◌<◌, length};
ghost use Rattle.table.specs.Ride.{Banded, band_start, Rode, RodeOut};

use leg::{Leg, Minute};
use rows::Rides;

// A leg, the window as its first minute and its number of columns, the row of the place that the leg leaves, and the first column from
// which that row is to be ridden. The number of columns and no `Window`: each ride reckons with it.
#[derive(Clone, Copy)]
pub struct Boarding<'a> {
    pub leg: Leg,
    pub earliest: Minute,
    pub w: usize,
    pub row: &'a [u32],
    pub from: usize,
    pub ghost banded: { Banded leg },
    // The window ends within the clock.
    pub ghost clock: { earliest.0 + w ≤ 2880 },
    pub ghost room: { w ≤ length row.now },
}

// That the target's row lies in `cells` is asked for at each ride: of a struct that lends `cells`, each contract would say that it lends the same ones afterwards.
impl<'a> Boarding<'a> {
    // The column of a minute; that of the window's first minute where it is earlier.
    fn column(&self, minute: Minute) -> usize
        ensures { result ≡ minute.0 - self.now.earliest.0 }
    {
        minute.0.saturating_sub(self.earliest.0) as usize
    }

    // Rides in band k: the first column of the target's row that changed, or w. With w for "nothing changed" the bands, and then the legs,
    // are joined by the minimum: w is neutral for it.
    fn ride_band(&self, k: usize, cells: &mut [u32]) -> usize
        requires { (k < self.now.leg.count) × (self.now.leg.to * self.now.w + self.now.w ≤ length cells.old) }
        ensures { Rode self.now.leg self.now.earliest.0 self.now.w self.now.from cells.old cells.new self.now.row.now result (band_start self.now.leg k) (band_start self.now.leg (k + 1)) }
    {
        let time = self.leg.time.0 as usize;
        let from = self.from.max(self.column(band_start(self.leg, k)));
        let until = self
            .column(band_start(self.leg, k + 1))
            .min(self.w.saturating_sub(time));
        if until <= from {
            return self.w;
        }
        let rides = Rides {
            row: self.row,
            from,
            until,
            time,
            add: rows::adds(self.leg.bands[k].toll),
        };
        rows::lower_row(cells, self.w, self.leg.to as usize, rides)
    }

    // Rides band by band: the first column of the target's row that changed, or w.
    fn ride(&self, cells: &mut [u32]) -> usize
        requires { self.now.leg.to * self.now.w + self.now.w ≤ length cells.old }
        ensures { Rode self.now.leg self.now.earliest.0 self.now.w self.now.from cells.old cells.new self.now.row.now result 0 2880 }
    {
        let mut first = self.w;
        for k in 0..self.leg.count {
            first = first.min(self.ride_band(k, cells));
        }
        first
    }

    // Rides, and the target notes the first column that changed.
    pub fn ride_out(&self, cells: &mut [u32], low: &mut [usize])
        requires { (self.now.leg.to * self.now.w + self.now.w ≤ length cells.old) × (self.now.leg.to < length low.old) }
        ensures { RodeOut self.now.leg self.now.earliest.0 self.now.w self.now.from cells.old cells.new self.now.row.now low.old low.new }
    {
        let to = self.leg.to as usize;
        let first = self.ride(cells);
        low[to] = low[to].min(first);
    }
}

// The minute at which band k starts; past the last band, the end of the clock. `rule_b::start_of` says it of a leg in a file, with a minute that never comes: one function
// for both would be over a trait of two methods.
fn band_start(leg: Leg, k: usize) -> Minute
    requires { leg.count ≤ 8 }
    ensures { result.0 ≡ band_start leg k }
{
    if k < leg.count {
        leg.bands[k].start
    } else {
        Minute(Minute::COUNT)
    }
}
