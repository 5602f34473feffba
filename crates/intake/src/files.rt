// Reading the chart file and standard input.
ghost use Rattle.std.specs.Prelude.{◌≤◌, length, IfOk};

use std::io::{ErrorKind, Read};
use std::{fs, io};

// What was read of `chart.mch`, at most as much as the buffer holds. A missing file is empty.
pub fn read_chart_file<'a>(rt: &HostRuntime, buffer: &'a mut [u8]) -> io::Result<&'a [u8]>
    ensures { IfOk result (λ file. length file.now ≤ length buffer.old) }
{
    match fs::open(rt, "chart.mch") {
        Ok(mut opened) => fill(&mut opened, buffer),
        Err(error) if error.kind() == ErrorKind::NotFound => Ok(&[]),
        Err(error) => Err(error),
    }
}

// What was read until the buffer was full or the input ended; `read_to_end` would take memory.
pub fn fill<'a, R: Read>(input: &mut R, buffer: &'a mut [u8]) -> io::Result<&'a [u8]>
    ensures { IfOk result (λ read. length read.now ≤ length buffer.old) }
{
    let mut done = 0;
    while done < buffer.len() {
        let got = input.read(&mut buffer[done..])?;
        if got == 0 {
            break;
        }
        done += got;
    }
    Ok(&buffer[..done])
}
