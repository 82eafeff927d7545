// Stored cases: inputs of the public calls with the answers of the independent program. compare/README.md has the format.
// Each function here is proved to be safe and to end; what the calls answer is compared as the program runs.
#![tactic(auto)]

use terminal::Reply;

mod call;
mod cursor;

use call::Call;
use cursor::Cursor;

// What lent buffers hold before a call.
const LENT_NUMBER: u32 = 0xA5A5_A5A5;

// The same of bytes.
const LENT_BYTE: u8 = 0xA5;

// How many cases a file has, and how many of them came out as stored.
#[derive(Clone, Copy)]
pub struct Tally {
    pub cases: u32,
    pub right: u32,
}

// A case of the read call: the file; number, length; the list afterwards. The lent buffers stay two values, here and below: of a struct that lends both, each
// function would have to say that it lends the same ones afterwards.
fn read_case(cases: &mut Cursor, list: &mut [u32]) -> bool {
    let net = cases.bytes();
    let reply = cases.reply();
    let after = cases.numbers();
    if list.len() < after.count {
        return false;
    }
    let list = &mut list[..after.count];
    list.fill(LENT_NUMBER);
    terminal::haul_read(net, list) == reply && after.same(list)
}

// A case of the write call: the list; number, length; the output afterwards.
fn write_case(cases: &mut Cursor, list: &mut [u32], out: &mut [u8]) -> bool {
    let given = cases.numbers();
    let reply = cases.reply();
    let room = cases.count();
    let after = cases.bytes();
    if list.len() < given.count || out.len() < room {
        return false;
    }
    let list = &mut list[..given.count];
    let out = &mut out[..room];
    given.copy_to(list);
    out.fill(LENT_BYTE);
    terminal::haul_write(list, out) == reply && &*out == after
}

// A case of the plan call or the sheet call: the file; start, end, earliest, latest; number, length; the table and the output afterwards. The call takes a query as the four
// numbers of the C interface.
fn plan_case<F: Fn(&[u8], u32, u32, u32, u32, &mut [u32], &mut [u8]) -> Reply>(
    cases: &mut Cursor,
    call: &F,
    list: &mut [u32],
    out: &mut [u8],
) -> bool
    requires { F.IsAlwaysCallable call.now }
{
    let net = cases.bytes();
    let start = cases.number();
    let end = cases.number();
    let earliest = cases.number();
    let latest = cases.number();
    let reply = cases.reply();
    let cells = cases.numbers();
    let room = cases.count();
    let after = cases.bytes();
    if list.len() < cells.count || out.len() < room {
        return false;
    }
    let table = &mut list[..cells.count];
    let out = &mut out[..room];
    table.fill(LENT_NUMBER);
    out.fill(LENT_BYTE);
    let answer = call(net, start, end, earliest, latest, table, out);
    answer == reply && cells.same(table) && &*out == after
}

// A case of the gate: the three files; the number.
fn gate_case(cases: &mut Cursor) -> bool {
    let net = cases.bytes();
    let plan = cases.bytes();
    let sheet = cases.bytes();
    terminal::haul_gate(net, plan, sheet) == cases.number()
}

// One case: the call, then its parts. After a call that there is not, the next case is looked for at the front.
fn one_case(cases: &mut Cursor, list: &mut [u32], out: &mut [u8]) -> bool {
    match cases.call() {
        Some(Call::Read) => read_case(cases, list),
        Some(Call::Write) => write_case(cases, list, out),
        Some(Call::Plan) => plan_case(cases, &terminal::haul_plan, list, out),
        Some(Call::Sheet) => plan_case(cases, &terminal::haul_sheet, list, out),
        Some(Call::Gate) => gate_case(cases),
        None => {
            cases.at = 0;
            false
        }
    }
}

// All cases of a file, in lent buffers.
pub fn run(file: &[u8], list: &mut [u32], out: &mut [u8]) -> Tally {
    let mut cases = Cursor { file, at: 0 };
    let count = cases.number();
    let mut right = 0;
    for _ in 0..count {
        if one_case(&mut cases, list, out) {
            right += 1;
        }
    }
    Tally {
        cases: count,
        right,
    }
}
