// The program that depots run: it opens the chart file of its folder, enters every property text of standard input, and
// prints the report of the finished book, or the line of the first refusal.
#![tactic(auto)]

use std::io;
use std::io::Write;

mod calls;
mod telling;

use intake::{fill, read_chart_file};
use telling::tell;

// What is read and what is printed lies in arrays, so that neither takes memory.

// One byte more than the longest chart file has.
const FILE_BYTES: usize = 5133;

// The most that is read of standard input.
const INPUT_BYTES: usize = 16384;

// More than the longest report has, which is a first and a last line and one for each of 32 entries: 3,400 bytes at most.
const OUT_BYTES: usize = 4096;

fn main(rt: HostRuntime) -> io::Result<()> {
    let mut file = [0; FILE_BYTES];
    let mut input = [0; INPUT_BYTES];
    let mut out = [0; OUT_BYTES];
    prove!(out.len() >= 3400);
    let file = read_chart_file(&rt, &mut file)?;
    let input = fill(&mut rt.stdin(), &mut input)?;
    match tell(rt.alloc(), file, input, &mut out) {
        Ok(end) => rt.stdout().write_all(&out[..end]),
        Err(_) => Ok(()),
    }
}
