// A program for the cases of reading: each line of its input has the number of marks (a digit), a list of names and a
// text, with `;` behind the first two. It prints the parts, one letter each, or the refusal with its position.
#![tactic(auto)]

mod letters;

use crate::letters::letter;
use anyhow::anyhow;
use intake::fill;
use property::{Part, Parts, read};
use std::io;

fn print_parts(rt: &HostRuntime, parts: &[Part]) -> io::Result<()> {
    for part in parts {
        print!(rt; "{}", letter(*part))?;
    }
    println!(rt; "")
}

fn answer(rt: &HostRuntime, line: &[u8], parts: &mut Parts) -> io::Result<()> {
    let marks = line
        .first()
        .map_or(0, |digit| usize::from(digit.saturating_sub(b'0')));
    let mut fields = line.splitn(3, |byte| *byte == b';').skip(1);
    let names = fields.next().unwrap_or(&[]);
    let text = fields.next().unwrap_or(&[]);
    match read(names, marks, text, parts) {
        Ok(()) => print_parts(rt, parts.as_slice()),
        Err(refusal) => println!(rt;
            "refused {} at {}",
            refusal.number(),
            refusal.value().unwrap_or(0)
        ),
    }
}

fn main(rt: HostRuntime) -> anyhow::Result<()> {
    // more than all cases have, so that no case takes memory; the lines borrow it
    let mut buffer = [0; 65536];
    let typed = fill(&mut rt.stdin(), &mut buffer)?.len();
    let mut parts = Parts::new(rt.alloc()).map_err(|_| anyhow!("no memory"))?;
    if typed == 0 {
        return Ok(());
    }
    // a last line without its end takes the rest of the buffer
    let end = if buffer[..typed].ends_with(b"\n") {
        typed - 1
    } else {
        buffer.len()
    };
    for line in buffer[..end].split(|byte| *byte == b'\n') {
        answer(&rt, line, &mut parts)?;
    }
    Ok(())
}
