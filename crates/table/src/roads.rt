// The sweep: places are visited until none has anything new to pass on.
ghost use Rattle.std.specs.Prelude.{◌≡◌, ◌+◌, ◌≤◌, ◌<◌, length, set};
ghost use Rattle.chart.specs.Net.{theory_in};
ghost use Rattle.rows.specs.Row.{at};
ghost use Rattle.table.specs.Ask.{Askable, columns, query};
ghost use Rattle.table.specs.Chains.{Chained};
ghost use Rattle.table.specs.Kept.{Kept, Never, Visiting, Onward, Visited, Clean};

use crate::boarding::Boarding;
use crate::{Ask, Chains};
use chart::Tariff;

// All that a sweep reads: the tariff, its legs in chains, and what is asked.
#[derive(Clone, Copy)]
pub struct Roads<'a> {
    pub tariff: &'a Tariff<'a>,
    pub chains: &'a Chains,
    pub ask: Ask,
    pub ghost asked: { Askable ask tariff.now.size },
    pub ghost chained: { Chained (theory_in tariff.now.net.now) tariff.now.size.legs chains.now.last chains.now.before },
}

// `cells` and `low` stay two parameters: of a struct that lends both, each contract would say that it lends the same two slices afterwards.
impl<'a> Roads<'a> {
    // The number of columns.
    pub fn width(&self) -> usize
        ensures { result ≡ columns self.now.ask }
    {
        self.ask.window.columns() as usize
    }

    // Rides along leg l from the settled row of the place that it leaves. A row has room for any window: it is as long as the clock.
    fn ride_leg(
        &self,
        l: usize,
        row: &[u32; 2880],
        from: usize,
        cells: &mut [u32],
        low: &mut [usize],
    )
        requires { (l < self.now.tariff.now.size.legs) × Visiting (theory_in self.now.tariff.now.net.now) (query self.now.ask) cells.old low.old row.now ((theory_in self.now.tariff.now.net.now).source l) from (l + 1) }
        ensures { Visiting (theory_in self.now.tariff.now.net.now) (query self.now.ask) cells.new low.new row.now ((theory_in self.now.tariff.now.net.now).source l) from l × Onward cells.old cells.new low.old low.new }
    {
        let board = Boarding {
            leg: self.tariff.leg(l),
            earliest: self.ask.window.earliest,
            w: self.width(),
            row,
            from,
        };
        board.ride_out(cells, low);
    }

    // Rides along all legs that leave p, from its settled row; the leg of the highest number comes first.
    fn ride_legs(
        &self,
        p: usize,
        row: &[u32; 2880],
        from: usize,
        cells: &mut [u32],
        low: &mut [usize],
    )
        requires { (p < self.now.tariff.now.size.places) × Visiting (theory_in self.now.tariff.now.net.now) (query self.now.ask) cells.old low.old row.now p from self.now.tariff.now.size.legs }
        ensures { Visited (theory_in self.now.tariff.now.net.now) (query self.now.ask) cells.old cells.new low.old low.new }
    {
        // No `for`: the legs are followed along the chain, each naming the next.
        let mut next = self.chains.last[p];
        while let Some(l) = next {
            self.ride_leg(l as usize, row, from, cells, low);
            next = self.chains.before[l as usize];
        }
    }

    // A visit of p: its row is settled from the first column that changed, and ridden from there along all its legs.
    fn visit(&self, p: usize, row: &mut [u32; 2880], cells: &mut [u32], low: &mut [usize])
        requires { (p < self.now.tariff.now.size.places) × (at low.old p < columns self.now.ask) × Kept (theory_in self.now.tariff.now.net.now) (query self.now.ask) cells.old low.old Never }
        ensures { Visited (theory_in self.now.tariff.now.net.now) (query self.now.ask) cells.old cells.new (set low.old p (columns self.now.ask)) low.new × (length row.new ≡ 2880) }
    {
        let w = self.width();
        let from = low[p];
        low[p] = w;
        rows::settle_row(cells, w, p, from, row);
        self.ride_legs(p, row, from, cells, low);
    }

    // Visits, until no place has anything new to pass on.
    pub fn sweep(&self, row: &mut [u32; 2880], cells: &mut [u32], low: &mut [usize])
        requires { (length low.old ≡ 64) × Kept (theory_in self.now.tariff.now.net.now) (query self.now.ask) cells.old low.old Never }
        ensures { Clean (theory_in self.now.tariff.now.net.now) (query self.now.ask) cells.new low.new }
    {
        let places = self.tariff.size.places as usize;
        let w = self.width();
        // No `for`: nothing is counted, it ends when no place is new.
        let mut from = 0;
        while let Some(p) = crate::next(low, from, places, w) {
            self.visit(p, row, cells, low);
            from = p;
        }
    }
}
