// One row of the minute table: a stretch of the lent cells, lowered where it stands. Columns are minutes after earliest.
#![tactic(auto)]

ghost use Rattle.std.specs.Prelude.{◌≡◌, false, ◌+◌, ◌*◌, ◌≤◌, ◌<◌, min, length};
ghost use Rattle.rows.specs.Row.{Passed, First, Lower, Settle};
ghost use Rattle.rows.specs.Whole.{SettleRow, LowerRow};

mod cell;
mod rides;

pub use cell::{NO_PLAN, adds, cost_of, legs_of};
pub use rides::Rides;

// Waiting costs nothing: from a column on, no cell is above the one before it. The settled cells are copied into `row`. By index, here and in `lower`: the promise speaks
// of the whole row, and of a part lent to `iter_mut` each fact would have to be led back to it.
pub fn settle(part: &mut [u32], from: usize, row: &mut [u32])
    requires { (from < length part.old) × (length part.old ≤ length row.old) }
    ensures { Settle part.old part.new row.new from (length part.old) }
{
    let mut best = part[from.saturating_sub(1)];
    for j in from..part.len() {
        best = best.min(part[j]);
        part[j] = best;
        row[j] = best;
    }
}

// May a ride arrive below a cell? Only the sum's last 32 bits are looked at, so that one that is too large for a cell may pass for a
// small one; a small one never passes for too large.
fn may_lower(value: u32, add: u64, cell: u32) -> bool
    ensures { result ≡ false → cell ≤ value + add }
{
    value.wrapping_add((add % 0x1_0000_0000) as u32) < cell
}

// May any of the rides arrive below what stands there? It never ends early, so that many columns are tested at a time. By index, here and below: a ride leaves one row
// at a column and arrives in another `time` columns on. That the rides end within the part is asked here and at each function below: the part is lent apart.
fn any_lower(part: &[u32], rides: Rides<'_>) -> bool
    requires { rides.until + rides.time ≤ length part.now }
    ensures { result ≡ false → Passed part.now rides.entry.row.now rides.entry.from rides.entry.until rides.entry.time rides.entry.add }
{
    let mut any = false;
    for k in rides.from..rides.until {
        if may_lower(rides.row[k], rides.add, part[k + rides.time]) {
            any = true;
        }
    }
    any
}

// The column of the first ride that arrives below what stands there: one column after the other. A `for` and no `find`, here and in `first_lower`: with `find` here a plan
// on the largest network took 1,800 µs for 1,690, and the proof of `find` over stretches did not close (both tried).
fn search(part: &[u32], rides: Rides<'_>) -> Option<usize>
    requires { rides.until + rides.time ≤ length part.now }
    ensures { First part.now rides.entry.row.now rides.entry.from rides.entry.until rides.entry.time rides.entry.add result }
{
    for i in rides.from..rides.until {
        if u64::from(rides.row[i]) + rides.add < u64::from(part[i + rides.time]) {
            return Some(i);
        }
    }
    None
}

// The same, a stretch of 64 columns at a time: only where one of them is lower are they looked at one by one.
pub fn first_lower(part: &[u32], rides: Rides<'_>) -> Option<usize>
    requires { rides.until + rides.time ≤ length part.now }
    ensures { First part.now rides.entry.row.now rides.entry.from rides.entry.until rides.entry.time rides.entry.add result }
{
    for i in (rides.from..rides.until).step_by(64) {
        if any_lower(part, rides.between(i, rides.until.min(i + 64))) {
            return search(part, rides.between(i, rides.until));
        }
    }
    None
}

// What a ride adds, in 32 bits.
fn capped(add: u64) -> u32
    ensures { result ≡ min add 4294967295 }
{
    add.min(u64::from(NO_PLAN)) as u32
}

// What a cell becomes that a ride reaches. In 32 bits, so that many are done at a time: a sum that is too large for a cell is cut,
// and "no plan" plus anything is "no plan".
fn ridden(cell: u32, value: u32, add: u64) -> u32
    ensures { result ≡ min cell (value + add) }
{
    let small = capped(add);
    cell.min(value.min(NO_PLAN - small) + small)
}

// A cell that a ride reaches becomes what the ride gives, where that is smaller.
pub fn lower(part: &mut [u32], rides: Rides<'_>)
    requires { rides.until + rides.time ≤ length part.old }
    ensures { Lower part.old part.new rides.entry.row.now rides.entry.from rides.entry.until rides.entry.time rides.entry.add }
{
    for j in rides.from..rides.until {
        part[j + rides.time] = ridden(part[j + rides.time], rides.row[j], rides.add);
    }
}

// The row of place p is the stretch of w cells from p * w on: settled there.
pub fn settle_row(cells: &mut [u32], w: usize, p: usize, from: usize, row: &mut [u32])
    requires { (p * w + w ≤ length cells.old) × (from < w) × (w ≤ length row.old) }
    ensures { SettleRow cells.old cells.new row.new w p from }
{
    let start = p * w;
    let end = start + w;
    settle(&mut cells[start..end], from, row);
}

// The row of place p, lowered along rides: the first column that changed, or w. Bands and legs are joined by the smaller of their first
// columns, and an Option would be turned back into w for that.
pub fn lower_row(cells: &mut [u32], w: usize, p: usize, rides: Rides<'_>) -> usize
    requires { (p * w + w ≤ length cells.old) × (rides.until + rides.time ≤ w) }
    ensures { LowerRow cells.old cells.new rides.entry.row.now w p rides.entry.from rides.entry.until rides.entry.time rides.entry.add result }
{
    let start = p * w;
    let end = start + w;
    let Some(first) = first_lower(&cells[start..end], rides) else {
        return w;
    };
    lower(&mut cells[start..end], rides.between(first, rides.until));
    first + rides.time
}
