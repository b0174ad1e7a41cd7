// Writes for each version the numbers that it holds, a line each. scripts/reader_cases.py makes the expected lines from the
// schemas that source document 001 prints.
#![tactic(auto)]

use schema::{ROWS, held, row_at};
use std::io;

fn say_version(rt: &HostRuntime, version: u32) -> io::Result<()> {
    print!(rt; "{version}:")?;
    for row in (0..ROWS).map(row_at) {
        if held(version, row) {
            let number = row.number;
            print!(rt; " {number}")?;
        }
    }
    println!(rt)
}

fn main(rt: HostRuntime) -> io::Result<()> {
    for version in [1, 2, 3, 4, 100, 200, 300] {
        say_version(&rt, version)?;
    }
    Ok(())
}
