// The calls that other programs link, as crate `terminal_c` exports them: each a few lines over the proved call.
#![tactic(auto)]

ghost use Rattle.std.specs.Prelude.{◌≡◌};
ghost use Rattle.answer.specs.Numbers.{number_by, length_by};
ghost use Rattle.read_call.specs.Read.{Reads};
ghost use Rattle.write_call.specs.Write.{Writes};
ghost use Rattle.plan.specs.Network.{asking};
ghost use Rattle.plan_call.specs.Call.{Plans};
ghost use Rattle.sheet_call.specs.Sheet.{Sheets};
ghost use Rattle.gate.specs.Gate.{GateSays};
ghost use Rattle.terminal.specs.Reply.{Replies, PlanReplies, Says};

use answer::{Done, Refusal};
use plan_file::Query;

// What comes back: the paper's number, and the length of what was written. A number with a value beside it: the C interface.
#[repr(C)]
#[derive(Clone, Copy, PartialEq, Eq)]
pub struct Reply {
    pub number: u32,
    pub length: u32,
}

impl<T: Done + Copy> From<Result<T, Refusal>> for Reply {
    ghost from_gives = { λ answer reply. (reply.number ≡ number_by T.number_is answer) × (reply.length ≡ length_by T.length_is answer) };

    fn from(answer: Result<T, Refusal>) -> Reply {
        Reply {
            number: answer::number(answer),
            length: answer::length(answer),
        }
    }
}

// A network file's fields as a list of numbers.
pub fn haul_read(net: &[u8], list: &mut [u32]) -> Reply
    ensures { Replies (Reads net.now list.old list.new) result }
{
    Reply::from(read_call::read(net, list))
}

// A list of numbers as a network file.
pub fn haul_write(list: &[u32], out: &mut [u8]) -> Reply
    ensures { Replies (Writes list.now out.old out.new) result }
{
    Reply::from(write_call::write(list, out))
}

// The named plan of a query, as a plan file, with the minute table. Two calls alike, this and the sheet's, and a query as four numbers in each: what may not change, since
// docs/ARCHITECTURE.md names this crate as what other programs call, and `terminal_c` hands over what C gives.
pub fn haul_plan(
    net: &[u8],
    start: u32,
    end: u32,
    earliest: u32,
    latest: u32,
    table: &mut [u32],
    out: &mut [u8],
) -> Reply
    ensures { PlanReplies (Plans net.now (asking start end earliest latest) table.old table.new out.old out.new) result }
{
    Reply::from(plan_call::plan(net, Query::new(start, end, earliest, latest), table, out))
}

// The bound sheet of a query, with the same table.
pub fn haul_sheet(
    net: &[u8],
    start: u32,
    end: u32,
    earliest: u32,
    latest: u32,
    table: &mut [u32],
    out: &mut [u8],
) -> Reply
    ensures { PlanReplies (Sheets net.now (asking start end earliest latest) table.old table.new out.old out.new) result }
{
    Reply::from(sheet_call::sheet(net, Query::new(start, end, earliest, latest), table, out))
}

// A plan and a bound sheet judged against a network, whoever wrote them.
pub fn haul_gate(net: &[u8], plan: &[u8], sheet: &[u8]) -> u32
    ensures { Says (GateSays net.now plan.now sheet.now) result }
{
    answer::number(gate::gate(net, plan, sheet))
}
