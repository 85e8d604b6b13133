// Runs the worked examples on standard input, at most 131,072 bytes, and prints a line for each. The head of `stdin`
// describes both. What it prints is tested and not proved: it is compared with what a plain Rust program prints. The
// answers are those of the crates below.
//
// The input is bytes, which need not be text: a name is printed as it stands, and where digits stand, a byte that is no
// digit counts as 0.
#![tactic(auto)]

mod commands;
mod leases;
mod lines;
mod operations;
mod packet_lines;
mod packets;
mod print;
mod readers;
mod replies;
mod wire;
mod words;
mod workouts;

use std::io;
use std::io::{BufWriter, Read, Write};

// The most bytes that are read.
const LIMIT: u64 = 131072;

fn main(rt: HostRuntime) -> io::Result<()> {
    let mut text = Vec::new(rt.alloc());
    rt.stdin().take(LIMIT).read_to_end(&mut text)?;
    let mut out = BufWriter::new(rt.alloc(), rt.stdout())?;
    run_all(&mut out, text.as_slice())?;
    out.flush()
}

// Empty lines, comments and lines that begin with the byte 0 are passed over.
fn run_all(out: &mut impl Write, text: &[u8]) -> io::Result<()> {
    for line in text.split(|b| *b == b'\n') {
        match line {
            [] | [0 | b'#', ..] => {}
            _ => run_line(out, line)?,
        }
    }
    Ok(())
}

fn run_line(out: &mut impl Write, line: &[u8]) -> io::Result<()> {
    let (name, rest) = words::split_word(line);
    let (operation, arguments) = words::split_word(rest);
    out.write_all(name)?;
    operations::run(out, operation, arguments)?;
    writeln!(out)
}
