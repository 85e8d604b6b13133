// Calls on a new lease table.
use crate::print::{Hex, Outcome, written};
use crate::words;
use crate::words::ROOM;
use std::io;
use std::io::Write;

// How many bytes of the table are an address's own.
const OWN: usize = 8;

// A call's name has its address, a byte, and its token after it. A word that is no call's name is passed over.
pub(crate) fn run_calls(out: &mut impl Write, calls: &[u8]) -> io::Result<()> {
    let mut table = [0u8; 2048];
    let mut operands = calls;
    for call in calls.split(|b| *b == b' ') {
        operands = words::split_word(operands).1;
        let (address, rest) = words::split_word(operands);
        let (token, _) = words::split_word(rest);
        run_call(
            out,
            &mut table,
            call,
            words::byte(address),
            words::number(token),
        )?;
    }
    Ok(())
}

fn run_call(
    out: &mut impl Write,
    table: &mut [u8; 2048],
    call: &[u8],
    address: u8,
    token: u64,
) -> io::Result<()> {
    let number = u32::from(address);
    match call {
        b"hold" => {
            let answer = lease::hold_lent(table, number, token);
            write!(out, " hold={}", Outcome(answer.map(|()| "done")))
        }
        b"release" => {
            let answer = lease::release_lent(table, number, token);
            write!(out, " release={}", Outcome(answer.map(|()| "done")))
        }
        b"stop" => {
            let mut room = [0u8; ROOM];
            let frame = written(
                &mut room,
                |room| lease::stop_lent(table, number, token, room),
            );
            write!(out, " stop={frame}")
        }
        b"bytes" => write!(out, " bytes={}", Hex(own(table, address))),
        _ => Ok(()),
    }
}

// The bytes of the table that are an address's own.
fn own(table: &[u8; 2048], address: u8) -> &[u8] {
    let start = OWN * usize::from(address);
    &table[start..start + OWN]
}
