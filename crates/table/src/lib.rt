// The minute table: rows are lowered along legs, place by place, until nothing changes.
#![tactic(auto)]

ghost use Rattle.std.specs.Prelude.{◌≡◌, ℕ, ◌+◌, ◌*◌, ◌≤◌, ◌<◌, length, replicate, None};
ghost use Rattle.chart.specs.Net.{theory_in};
ghost use Rattle.table.specs.Chains.{Chained};
ghost use Rattle.table.specs.Kept.{FirstNew, NextNew, Outset};
ghost use Rattle.table.specs.Filled.{Fillable, Filled};

mod boarding;
mod roads;

use chart::Tariff;
use leg::Window;
use network::SoundFile;
use roads::Roads;

// From where, and in which window.
#[derive(Clone, Copy)]
pub struct Ask {
    pub start: u32,
    pub window: Window,
}

// The legs of each place as a chain: the highest that leaves the place, and for each leg the next lower one. Arrays of fixed size, and
// numbers of 16 bits, since no heap is used and the stack is to be small (rules of the project).
#[derive(Clone, Copy)]
struct Chains {
    last: [Option<u16>; 64],
    before: [Option<u16>; 512],
}

impl Chains {
    // Hangs each leg on the chain of the place that it leaves: filled where they lie, since chains given back would be copied. By index: it is the leg's number.
    fn hang(&mut self, tariff: &Tariff)
        requires { self.old.last ≡ replicate 64 None }
        ensures { Chained (theory_in tariff.now.net.now) tariff.now.size.legs self.new.last self.new.before }
    {
        for l in 0..tariff.size.legs {
            let from = tariff.leg(l).from as usize;
            self.before[l] = self.last[from].replace(l as u16);
        }
    }
}

// The first of the places from..until that has something new to pass on: `low` has its first changed column, or w where there is none, as a ride gives it.
fn first_new(low: &[usize], from: usize, until: usize, w: usize) -> Option<usize>
    requires { (from ≤ until) × (until ≤ length low.now) }
    ensures { FirstNew low.now from until w result }
{
    (from..until).find(|p| low[*p] < w)
}

// The next place, from p on and around, that has something new to pass on.
fn next(low: &[usize], p: usize, places: usize, w: usize) -> Option<usize>
    requires { (p ≤ places) × (places ≤ length low.now) }
    ensures { NextNew low.now places w result }
{
    first_new(low, p, places, w).or_else(|| first_new(low, 0, p, w))
}

// Before the first visit: who waits at the start has paid nothing, and no other cell has a plan yet.
fn outset(start: usize, w: usize, cells: &mut [u32], low: &mut [usize])
    requires { (start * w + w ≤ length cells.old) × (start < length low.old) }
    ensures { Outset start w cells.old cells.new low.old low.new }
{
    let begin = start * w;
    let end = begin + w;
    cells.fill(rows::NO_PLAN);
    cells[begin..end].fill(0);
    low.fill(w);
    low[start] = 0;
}

// The minute table of a sound network file: 64 × cost + legs for each place and minute of the window. Start and window are two values: docs/ARCHITECTURE.md names this
// function. What it fills besides has room for the largest network and the whole clock: no heap, fixed memory.
pub fn fill(file: SoundFile<'_>, start: u32, window: Window, cells: &mut [u32])
    requires { Fillable file.size start window cells.old }
    ensures { Filled file.entry.net.now start window cells.old cells.new }
{
    let mut low = [0usize; 64];
    let mut row = [0u32; 2880];
    let tariff = Tariff::of(file);
    let mut chains = Chains {
        last: [None; 64],
        before: [None; 512],
    };
    chains.hang(&tariff);
    let roads = Roads {
        tariff: &tariff,
        chains: &chains,
        ask: Ask { start, window },
    };
    outset(start as usize, roads.width(), cells, &mut low);
    roads.sweep(&mut row, cells, &mut low);
}
