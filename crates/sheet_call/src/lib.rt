// The sheet call: the table filled as for the plan call, and then the least costs themselves as a sheet file.
#![tactic(auto)]

ghost use Rattle.std.specs.Prelude.{◌≡◌, ◌+◌, ◌*◌, ◌≤◌, ◌<◌, length};
ghost use Rattle.bits.specs.Packed.{bits_of};
ghost use Rattle.plan_file.specs.PlanFile.{query_of};
ghost use Rattle.plan_file.specs.Puts.{Puts};
ghost use Rattle.tabled.specs.Tabled.{Tabled};
ghost use Rattle.chart.specs.Net.{theory_in};
ghost use Rattle.sheet_call.specs.Rows.{step_to, steps_of, sheet_in};
ghost use Rattle.sheet_file.specs.Fields.{step_fields, steps_fields, place_fields, places_fields, sheet_bytes, FileOf};
ghost use Rattle.sheet_call.specs.Parts.{Counted, RoomAt, Weighed};
ghost use Rattle.sheet_call.specs.Sheet.{Answered, Sheets};

mod filled;

use answer::{Filed, PlanAnswer, Refusal};
use filled::Filled;
use leg::{Cents, Minute};
use network::SoundFile;
use plan_file::Query;
use walk::Table;

// What a cell without a plan shows for a cost: above every cost, so that the least so far begins with it, and needs no Option.
const NO_COST: Cents = Cents(67108863);

// How many steps a row has.
fn count_steps(row: &[u32]) -> u32
    requires { length row.now ≤ 2880 }
    ensures { Counted row.now result }
{
    let mut was = NO_COST;
    let mut count = 0;
    for &cell in row {
        let cost = rows::cost_of(cell);
        if cost < was {
            was = cost;
            count += 1;
        }
    }
    count
}

// How many bytes the sheet's file has.
fn weigh(table: &Filled) -> u32
    ensures { Weighed table.now.cells.now table.now.w table.now.places result }
{
    let mut bits = 15;
    for p in 0..table.places {
        bits += 12 + 44 * count_steps(table.row(p));
    }
    bits.div_ceil(8)
}

// One step, from bit `at` on (that its minute comes: see `leg::Minute`). No writer that holds its bit: it would lend the bytes, and each contract would say that it lends the
// same ones afterwards; and a place's number of steps is put in front of them, once they are there.
fn put_step(out: &mut [u8], at: usize, minute: Minute, price: Cents)
    requires { (minute.0 < 4096) × (at + 44 ≤ 8 * length out.old) × (at ≤ 20000000) }
    ensures { Puts out.old out.new at (step_fields (step_to minute.0 price.0)) }
{
    bits::put(out, at, 12, minute.0);
    bits::put(out, at + 12, 32, price.0);
}

// The steps of a row; how many. The walk of `count_steps` again: what is done at a step, handed over as a closure, would be longer than the walk.
fn put_steps(row: &[u32], earliest: Minute, out: &mut [u8], at: usize) -> u32
    requires { (earliest.0 + length row.now ≤ 2880) × RoomAt out.old at (steps_fields (steps_of earliest.0 row.now)) }
    ensures { Counted row.now result × Puts out.old out.new at (steps_fields (steps_of earliest.0 row.now)) }
{
    let mut was = NO_COST; // nothing is put yet
    let mut count = 0;
    for (column, cell) in row.iter().enumerate() {
        let cost = rows::cost_of(*cell);
        if cost < was {
            put_step(
                out,
                at + 44 * count as usize,
                Minute(earliest.0 + column as u32),
                cost,
            );
            was = cost;
            count += 1;
        }
    }
    count
}

// A place: its steps, and in front of them how many there are. The bit behind it.
fn put_place(row: &[u32], earliest: Minute, out: &mut [u8], at: usize) -> usize
    requires { (earliest.0 + length row.now ≤ 2880) × (at ≤ 9000000) × RoomAt out.old at (place_fields (steps_of earliest.0 row.now)) }
    ensures { (result ≡ at + bits_of (place_fields (steps_of earliest.0 row.now))) × (result ≤ at + 126732)
        × Puts out.old out.new at (place_fields (steps_of earliest.0 row.now)) }
{
    let count = put_steps(row, earliest, out, at + 12);
    bits::put(out, at, 12, count);
    at + 12 + 44 * count as usize
}

// All places, behind edition and number of places.
fn put_places(table: &Filled, out: &mut [u8])
    requires { RoomAt out.old 15 (places_fields (sheet_in table.now.cells.now table.now.w table.now.earliest.0 table.now.places)) }
    ensures { Puts out.old out.new 15 (places_fields (sheet_in table.now.cells.now table.now.w table.now.earliest.0 table.now.places)) }
{
    let mut at = 15;
    for p in 0..table.places {
        at = put_place(table.row(p), table.earliest, out, at);
    }
}

// The file of the sheet that a filled table shows.
fn write_sheet(table: &Filled, file: &mut [u8])
    requires { length file.old ≡ sheet_bytes (sheet_in table.now.cells.now table.now.w table.now.earliest.0 table.now.places) }
    ensures { FileOf (sheet_in table.now.cells.now table.now.w table.now.earliest.0 table.now.places) file.new }
{
    bits::clear(file);
    bits::put(file, 0, 8, 1);
    bits::put(file, 8, 7, table.places);
    put_places(table, file);
}

// From the filled table of some network: 9, or the file and 10 or 0.
fn answer(file: SoundFile<'_>, table: Table<'_>, out: &mut [u8]) -> PlanAnswer
    requires { Tabled file.net.now file.size table.query table.cells.now }
    ensures { Answered (theory_in file.entry.net.now) (query_of table.entry.query) out.old out.new result }
{
    let query = table.query;
    let filled = Filled {
        cells: table.cells,
        earliest: query.earliest,
        w: query.window().columns() as usize,
        places: file.size.places,
    };
    let bytes = weigh(&filled);
    if out.len() < bytes as usize {
        return Err(Refusal::Room);
    }
    write_sheet(&filled, &mut out[..bytes as usize]);
    if table.cell(query.end, query.latest) == rows::NO_PLAN {
        return Ok(Filed::NoPlan(bytes));
    }
    Ok(Filed::Plan(bytes))
}

// THE SHEET CALL: the plan call with another answer. Why two functions: see there.
pub fn sheet(net: &[u8], query: Query, table: &mut [u32], out: &mut [u8]) -> PlanAnswer
    ensures { Sheets net.now (query_of query) table.old table.new out.old out.new result }
{
    let file = tabled::fill_for(net, query, table)?;
    let table = Table {
        cells: table,
        query,
    };
    answer(file, table, out)
}
