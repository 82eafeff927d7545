// Runs the stored cases of the independent program through the public calls, and prints how many came out as stored.
#![tactic(auto)]

use cases::Tally;
use std::fmt::InlineText;
use std::rt::Files;
use std::{fs, io};

// The files, in the order in which they are run.
const FILES: [&str; 9] = [
    "read.cases",
    "write.cases",
    "plan.cases",
    "sheet.cases",
    "gate.cases",
    "trial.cases",
    "source.cases",
    "read_largest.cases",
    "write_largest.cases",
];

// What the library says of an error, without the number that it adds in brackets.
fn without_number(text: &str) -> &str {
    text.split_once(" (os error ")
        .map_or(text, |(words, _)| words)
}

// The cases of one file. One that cannot be opened is named on standard error, and the others are run all the same.
fn run_file<R: Files + Print + Eprint>(
    rt: &R,
    name: &str,
    list: &mut [u32],
    out: &mut [u8],
) -> io::Result<()> {
    let mut space = [0u8; 65536];
    let size = match fs::open(rt, name) {
        Ok(mut file) => input::read_full(&mut file, &mut space),
        Err(error) => {
            let text = InlineText::<128>::of(error);
            let words = without_number(text.as_str());
            return eprintln!(rt; "{name}: {words}");
        }
    };
    let Tally { cases, right } = cases::run(&space[..size], list, out);
    println!(rt; "{name}: {right} of {cases} as stored")
}

fn main(rt: HostRuntime) -> io::Result<()> {
    let mut list = [0u32; 10300];
    let mut out = [0u8; 16384];
    for name in FILES {
        run_file(&rt, name, &mut list, &mut out)?;
    }
    Ok(())
}
