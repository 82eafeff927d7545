// What the plan call and the sheet call have in common: the tests 1 to 8, then the filled table.
#![tactic(auto)]

ghost use Rattle.std.specs.Prelude.{◌≡◌, ◌*◌, ◌≤◌};
ghost use Rattle.plan_file.specs.PlanFile.{query_of};
ghost use Rattle.tabled.specs.Judge.{judgement};
ghost use Rattle.tabled.specs.Tabled.{Fills};

use answer::Refusal;
use network::SoundFile;
use plan_file::Query;

// How many cells a table has.
fn area(places: u32, width: u32) -> usize
    requires { (places ≤ 64) × (width ≤ 2880) }
    ensures { (result ≡ places * width) × (result ≤ 184320) }
{
    (places * width) as usize
}

// 6, 7 and 8. The gate has the first two as well: one function for both, with its contract, would be no shorter.
fn judge_query(places: u32, query: Query, room: usize) -> Result<(), Refusal>
    requires { places ≤ 64 }
    ensures { result ≡ judgement places (query_of query) room }
{
    if !query.known(places) {
        return Err(Refusal::Query);
    }
    if query.latest < query.earliest {
        return Err(Refusal::Window);
    }
    if room < area(places, query.window().columns()) {
        return Err(Refusal::Cells);
    }
    Ok(())
}

// Refused with 1 to 8 and the table as it was; or its first places × W cells are filled for the file's network.
pub fn fill_for<'a>(
    net: &'a [u8],
    query: Query,
    table: &mut [u32],
) -> Result<SoundFile<'a>, Refusal>
    ensures { Fills net.now query table.old table.new result }
{
    let file = network::judge(net)?;
    judge_query(file.size.places, query, table.len())?;
    let window = query.window();
    let cells = area(file.size.places, window.columns());
    table::fill(file, query.start, window, &mut table[..cells]);
    Ok(file)
}
