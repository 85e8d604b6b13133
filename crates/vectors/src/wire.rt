// Frames read and written, and what stands in them.
use crate::print::{Hex, Outcome, Reading, first, written};
use crate::words::ROOM;
use crate::{commands, replies, workouts};
use frame::{Header, Origin, Outline};
use std::io::Write;
use std::{fmt, io};

// A frame that is read.
#[derive(Clone, Copy)]
pub(crate) struct Frame<'a> {
    header: Header,
    contents: &'a [u8],
}

impl<'a> Frame<'a> {
    // Its contents stand first in an array.
    // Stays beside `packets::Packet::in_array`: one function for both would be given both structs' fields one by one.
    pub(crate) fn in_array(outline: Outline, bytes: &'a [u8]) -> Frame<'a> {
        Frame {
            header: outline.header,
            contents: first(bytes, outline.len),
        }
    }
}

impl fmt::Display for Frame<'_> {
    fn fmt<W: fmt::Write>(&self, f: &mut fmt::Formatter<W>) -> fmt::Result {
        let Frame { header, contents } = *self;
        match header {
            Header::Plain => write!(f, "std")?,
            Header::Addressed { to, from } => write!(f, "ext to={to:02X} from={from:02X}")?,
        }
        write!(f, " len={} contents={}", contents.len(), Hex(contents))
    }
}

// A frame that is read is written again from what was read, to where it came from.
pub(crate) fn read(out: &mut impl Write, origin: Origin, wire: &[u8]) -> io::Result<()> {
    let mut room = [0u8; ROOM];
    let read = frame::read_frame(origin, wire, &mut room);
    let frame = read.map(|outline| Frame::in_array(outline, &room));
    write!(out, "{}", Reading(frame))?;
    let Ok(Frame { header, contents }) = frame else {
        return Ok(());
    };
    match header {
        Header::Plain => print_standard(out, origin, contents)?,
        Header::Addressed { to, from } => print_extended(out, to, from, contents)?,
    }
    print_contents(out, contents)
}

pub(crate) fn print_contents(out: &mut impl Write, contents: &[u8]) -> io::Result<()> {
    commands::print_commands(out, contents)?;
    replies::print_reply(out, contents)?;
    workouts::print_workout(out, contents)
}

pub(crate) fn print_number(out: &mut impl Write, bytes: &[u8]) -> io::Result<()> {
    write!(out, " number={}", numbers::number_at(bytes, 0, bytes.len()))
}

// ---- writing

pub(crate) fn print_standard(
    out: &mut impl Write,
    origin: Origin,
    contents: &[u8],
) -> io::Result<()> {
    let mut room = [0u8; ROOM];
    let wire = written(
        &mut room,
        |room| writer::write_standard(origin, contents, room),
    );
    write!(out, " written={wire}")
}

pub(crate) fn print_extended(
    out: &mut impl Write,
    to: u8,
    from: u8,
    contents: &[u8],
) -> io::Result<()> {
    let mut room = [0u8; ROOM];
    let wire = written(
        &mut room,
        |room| writer::write_extended(to, from, contents, room),
    );
    write!(out, " written={wire}")
}

pub(crate) fn print_standard_length(
    out: &mut impl Write,
    origin: Origin,
    contents: &[u8],
) -> io::Result<()> {
    let length = writer::standard_length(origin, contents);
    write!(out, " length={}", Outcome(length))
}

pub(crate) fn print_extended_length(
    out: &mut impl Write,
    to: u8,
    from: u8,
    contents: &[u8],
) -> io::Result<()> {
    let length = writer::extended_length(to, from, contents);
    write!(out, " length={}", Outcome(length))
}
