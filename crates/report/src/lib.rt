// What `haul` prints: input bytes to text. A query, then a network; the answer's number, and the plan where there is one.
#![tactic(auto)]

ghost use Rattle.std.specs.Prelude.{◌≡◌, ◌+◌, ◌≤◌, length, take};
ghost use Rattle.network.specs.Network.{of_file};
ghost use Rattle.plan_file.specs.PlanFile.{query_of};
ghost use Rattle.tabled.specs.Judge.{judged};
ghost use Rattle.text.specs.Text.{HasRoom, Writes};
ghost use Rattle.report.specs.Report.{answer_text, latest_of, Prints, Reports};
ghost use Rattle.report.specs.Pages.{Fills};

mod rides;

use answer::{Filed, Refusal};
use chart::Tariff;
use leg::Minute;
use plan_file::Query;
use rides::Rides;
use text::Page;

// `answer N`.
fn answer_line(page: &mut Page, number: u32)
    requires { HasRoom page.old 32 }
    ensures { Writes page.old page.new (answer_text number) }
{
    page.line(b"answer ", number);
}

// Latest 4,095 stands for 1,439.
fn latest_of(latest: Minute) -> Minute
    ensures { result.0 ≡ latest_of latest.0 }
{
    if latest == Minute(4095) {
        Minute(1439)
    } else {
        latest
    }
}

// A network and a query: the lines of the plan, or why there are none. The room that a plan and its text need is asked for here, in `whole_text` and in
// `report`: a struct of the three lent buffers would have to say in each of their contracts that it lends the same ones afterwards.
fn net_text(
    net: &[u8],
    query: Query,
    table: &mut [u32],
    plan: &mut [u8],
    page: &mut Page,
) -> Result<(), Refusal>
    requires { (177 ≤ length plan.old) × (4096 ≤ length page.old.out.now) × (page.old.at ≡ 0) }
    ensures { Fills (Prints (judged (of_file net.now) (query_of query) (length table.old)) (query_of query)) page.old page.new result }
{
    let file = network::judge(net)?;
    match plan_call::plan(net, query, table, plan)? {
        Filed::Plan(_) => {
            let tariff = Tariff::of(file);
            let rides = Rides {
                tariff,
                plan,
                query,
            };
            rides.text(page);
            Ok(())
        }
        Filed::NoPlan(_) => Err(Refusal::NoPlan),
    }
}

// The lines of an input's plan, on an empty page, or why there are none.
fn whole_text(
    input: &[u8],
    table: &mut [u32],
    plan: &mut [u8],
    page: &mut Page,
) -> Result<(), Refusal>
    requires { (177 ≤ length plan.old) × (4096 ≤ length page.old.out.now) × (page.old.at ≡ 0) }
    ensures { Fills (Reports input.now (length table.old)) page.old page.new result }
{
    if input.len() < 5 {
        return Err(Refusal::Short);
    }
    if reader::field(input, 36, 4) != 0 {
        return Err(Refusal::Tail);
    }
    let query = plan_reader::query_at(input, 0);
    let latest = latest_of(query.latest);
    net_text(&input[5..], Query { latest, ..query }, table, plan, page)
}

// THE REPORT: a refusal is one line, the answer's number.
pub fn report(input: &[u8], table: &mut [u32], plan: &mut [u8], text: &mut [u8]) -> usize
    requires { (177 ≤ length plan.old) × (4096 ≤ length text.old) }
    ensures { Reports input.now (length table.old) (take result text.new)
        × (result ≤ length text.new) }
{
    let mut page = Page { out: text, at: 0 };
    if let Err(why) = whole_text(input, table, plan, &mut page) {
        answer_line(&mut page, why.number());
    }
    page.at
}
