// The plan call: the table filled, the walk back, and the plan file.
#![tactic(auto)]

ghost use Rattle.plan_file.specs.PlanFile.{query_of};
ghost use Rattle.tabled.specs.Tabled.{Tabled};
ghost use Rattle.chart.specs.Net.{theory_in};
ghost use Rattle.plan_call.specs.Call.{Answered, Plans};

use answer::{Filed, PlanAnswer, Refusal};
use chart::Tariff;
use network::SoundFile;
use plan_file::Query;
use walk::{Table, Walk};

// 9, 10 and 0, from a filled table.
fn answer(file: SoundFile<'_>, table: Table<'_>, out: &mut [u8]) -> PlanAnswer
    requires { Tabled file.net.now file.size table.query table.cells.now }
    ensures { Answered (theory_in file.entry.net.now) (query_of table.entry.query) out.old out.new result }
{
    let query = table.query;
    if table.cell(query.end, query.latest) == rows::NO_PLAN {
        if out.len() < 12 {
            return Err(Refusal::Room);
        }
        walk::write_none(&mut out[..12], query);
        return Ok(Filed::NoPlan(12));
    }
    let arrival = table.first(query.end, query.latest, 64);
    let legs = rows::legs_of(table.cell(query.end, arrival));
    let bytes = (89 + 21 * legs).div_ceil(8);
    if out.len() < bytes as usize {
        return Err(Refusal::Room);
    }
    let tariff = Tariff::of(file);
    let walk = Walk { tariff, table };
    walk.write_plan(&mut out[..bytes as usize], arrival);
    Ok(Filed::Plan(bytes))
}

// THE PLAN CALL. The sheet call is the same with another answer: one function for both would take the answer as a closure and its promise as a parameter, and be longer.
pub fn plan(net: &[u8], query: Query, table: &mut [u32], out: &mut [u8]) -> PlanAnswer
    ensures { Plans net.now (query_of query) table.old table.new out.old out.new result }
{
    let file = tabled::fill_for(net, query, table)?;
    let table = Table {
        cells: table,
        query,
    };
    answer(file, table, out)
}
