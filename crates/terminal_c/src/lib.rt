// The archive that other programs link: the calls of `terminal` under their C names, with the same promises. Each call stands in both crates: a crate is a library or an
// archive, and `cases` needs the library.
#![tactic(auto)]

ghost use Rattle.std.specs.Prelude.{◌≡◌};
ghost use Rattle.read_call.specs.Read.{Reads};
ghost use Rattle.write_call.specs.Write.{Writes};
ghost use Rattle.plan.specs.Network.{asking};
ghost use Rattle.plan_call.specs.Call.{Plans};
ghost use Rattle.sheet_call.specs.Sheet.{Sheets};
ghost use Rattle.gate.specs.Gate.{GateSays};
ghost use Rattle.terminal.specs.Reply.{Replies, PlanReplies, Says};

use terminal::Reply;

// A network file's fields as a list of numbers.
#[unsafe(no_mangle)]
pub extern "C" fn haul_read(net: &[u8], list: &mut [u32]) -> Reply
    ensures { Replies (Reads net.now list.old list.new) result }
{
    terminal::haul_read(net, list)
}

// A list of numbers as a network file.
#[unsafe(no_mangle)]
pub extern "C" fn haul_write(list: &[u32], out: &mut [u8]) -> Reply
    ensures { Replies (Writes list.now out.old out.new) result }
{
    terminal::haul_write(list, out)
}

// The named plan of a query, as a plan file, with the minute table. Two calls alike, this and the sheet's, of seven values each: the C interface.
#[unsafe(no_mangle)]
pub extern "C" fn haul_plan(
    net: &[u8],
    start: u32,
    end: u32,
    earliest: u32,
    latest: u32,
    table: &mut [u32],
    out: &mut [u8],
) -> Reply
    ensures { PlanReplies (Plans net.now (asking start end earliest latest) table.old table.new out.old out.new) result }
{
    terminal::haul_plan(net, start, end, earliest, latest, table, out)
}

// The bound sheet of a query, with the same table.
#[unsafe(no_mangle)]
pub extern "C" fn haul_sheet(
    net: &[u8],
    start: u32,
    end: u32,
    earliest: u32,
    latest: u32,
    table: &mut [u32],
    out: &mut [u8],
) -> Reply
    ensures { PlanReplies (Sheets net.now (asking start end earliest latest) table.old table.new out.old out.new) result }
{
    terminal::haul_sheet(net, start, end, earliest, latest, table, out)
}

// A plan and a bound sheet judged against a network, whoever wrote them.
#[unsafe(no_mangle)]
pub extern "C" fn haul_gate(net: &[u8], plan: &[u8], sheet: &[u8]) -> u32
    ensures { Says (GateSays net.now plan.now sheet.now) result }
{
    terminal::haul_gate(net, plan, sheet)
}
