// haul: a query and a network on standard input, the plan as text on standard output.
#![tactic(auto)]

use std::io;

fn run<R: Input + Print>(
    rt: &R,
    input: &mut [u8],
    table: &mut [u32],
    plan: &mut [u8; 177],
    text: &mut [u8; 4096],
) -> io::Result<()> {
    let size = input::read_full(&mut rt.reader(), input);
    let written = report::report(&input[..size], table, plan, text);
    Print::write_all(rt, &text[..written])
}

// A query is 5 bytes and the largest network 16,132: one byte more shows that something follows it.
fn main(rt: HostRuntime) -> io::Result<()> {
    let mut input = [0u8; 16138];
    let mut table = [0u32; 16384];
    let mut plan = [0u8; 177];
    let mut text = [0u8; 4096];
    run(&rt, &mut input, &mut table, &mut plan, &mut text)
}
