// Treadmill packets read and written, and how one is printed.
ghost use Rattle.std.specs.Prelude.{◌≤◌};

use crate::print::{Hex, Reading, first, written};
use crate::words;
use coscom::{Header, Outline};
use std::io::Write;
use std::{fmt, io};

// The longest output that is lent.
const ROOM: usize = 300;

// A packet that is read.
#[derive(Clone, Copy)]
pub(crate) struct Packet<'a> {
    header: Header,
    unit: &'a [u8],
}

impl<'a> Packet<'a> {
    // Its data unit stands first in an array.
    // Stays beside `wire::Frame::in_array`: one function for both would be given both structs' fields one by one.
    pub(crate) fn in_array(outline: Outline, bytes: &'a [u8]) -> Packet<'a> {
        Packet {
            header: outline.header,
            unit: first(bytes, outline.len),
        }
    }
}

impl fmt::Display for Packet<'_> {
    fn fmt<W: fmt::Write>(&self, f: &mut fmt::Formatter<W>) -> fmt::Result {
        let Packet { header, unit } = *self;
        let Header { letter, tens, ones } = header;
        write!(f, "packet header={}", Hex(&[letter, tens, ones]))?;
        write!(f, " len={} unit={}", unit.len(), Hex(unit))
    }
}

// The first argument says how many bytes the output has. A packet that is read is written again from what was read.
pub(crate) fn read(out: &mut impl Write, arguments: &[u8]) -> io::Result<()> {
    let (size, bytes) = words::split_word(arguments);
    let mut wire = [0u8; words::ROOM];
    let wire = words::bytes(bytes, &mut wire);
    let mut room = [0u8; ROOM];
    let room = &mut room[..room_of(size)];
    let read = coscom::read_packet(wire, room);
    let packet = read.map(|outline| Packet::in_array(outline, room));
    write!(out, "{}", Reading(packet))?;
    let Ok(Packet { header, unit }) = packet else {
        return Ok(());
    };
    let mut room = [0u8; ROOM];
    print_written(out, header, unit, &mut room)
}

// After the first argument, the first three bytes are the header.
pub(crate) fn write(out: &mut impl Write, arguments: &[u8]) -> io::Result<()> {
    let (size, bytes) = words::split_word(arguments);
    let mut packet = [0u8; words::ROOM];
    let packet = words::bytes(bytes, &mut packet);
    let (letter, rest) = words::split_byte(packet);
    let (tens, rest) = words::split_byte(rest);
    let (ones, unit) = words::split_byte(rest);
    let mut room = [0u8; ROOM];
    let room = &mut room[..room_of(size)];
    print_written(out, Header { letter, tens, ones }, unit, room)
}

fn print_written(
    out: &mut impl Write,
    header: Header,
    unit: &[u8],
    room: &mut [u8],
) -> io::Result<()> {
    let wire = written(room, |room| coscom::write_packet(header, unit, room));
    write!(out, " written={wire}")
}

// The number of bytes that a word says, at most those of the longest output.
fn room_of(size: &[u8]) -> usize
    ensures { result ≤ 300 }
{
    words::number(size).min(ROOM as u64) as usize
}
