// What an example asks for, by the name of its operation.
use crate::words::ROOM;
use crate::{
    commands, leases, lines, packet_lines, packets, readers, replies, wire, words, workouts,
};
use frame::Origin;
use std::io;
use std::io::Write;

// Operations whose arguments are not bytes alone.
pub(crate) fn run(out: &mut impl Write, operation: &[u8], arguments: &[u8]) -> io::Result<()> {
    match operation {
        b"distance" => workouts::write(out, workouts::distance, arguments),
        b"time" => workouts::write(out, workouts::time, arguments),
        b"distance-frame" => workouts::write_frame(out, workouts::distance, arguments),
        b"time-frame" => workouts::write_frame(out, workouts::time, arguments),
        b"lease" => leases::run_calls(out, arguments),
        b"packet-read" => packets::read(out, arguments),
        b"packet-write" => packets::write(out, arguments),
        b"names" => replies::print_names(out),
        _ => run_on_line(out, operation, arguments),
    }
}

// Operations on line readers.
fn run_on_line(out: &mut impl Write, operation: &[u8], arguments: &[u8]) -> io::Result<()> {
    match operation {
        b"line" => lines::run(out, lines::new(Origin::Trace, arguments)),
        b"line-at" => lines::run(out, lines::counted(Origin::Trace, arguments)),
        b"live-line" => lines::run(out, lines::new(Origin::Live, arguments)),
        b"live-line-at" => lines::run(out, lines::counted(Origin::Live, arguments)),
        b"chunks" => readers::feed(out, lines::new(Origin::Trace, arguments)),
        b"chunks-at" => readers::feed(out, lines::counted(Origin::Trace, arguments)),
        b"live-chunks" => readers::feed(out, lines::new(Origin::Live, arguments)),
        b"live-chunks-at" => readers::feed(out, lines::counted(Origin::Live, arguments)),
        b"packets" => readers::step(out, packet_lines::new(arguments)),
        b"packet-chunks" => readers::feed(out, packet_lines::new(arguments)),
        _ => {
            let mut room = [0u8; ROOM];
            run_on_bytes(out, operation, words::bytes(arguments, &mut room))
        }
    }
}

// Operations on bytes, of which the first is a number for some.
fn run_on_bytes(out: &mut impl Write, operation: &[u8], bytes: &[u8]) -> io::Result<()> {
    let (first, rest) = words::split_byte(bytes);
    match operation {
        b"frame" => wire::read(out, Origin::Trace, bytes),
        b"live-frame" => wire::read(out, Origin::Live, bytes),
        b"contents" => wire::print_contents(out, bytes),
        b"standard" => wire::print_standard(out, Origin::Trace, bytes),
        b"live-standard" => wire::print_standard(out, Origin::Live, bytes),
        b"standard-length" => wire::print_standard_length(out, Origin::Trace, bytes),
        b"live-length" => wire::print_standard_length(out, Origin::Live, bytes),
        b"number" => wire::print_number(out, bytes),
        b"command" => commands::print_command(out, rest, first.into()),
        b"step" => commands::print_one_step(out, rest, first.into()),
        b"item" => commands::print_item(out, rest, first.into()),
        _ => run_on_two(out, operation, first, rest),
    }
}

// Operations on bytes, of which the first two are numbers or addresses.
fn run_on_two(out: &mut impl Write, operation: &[u8], first: u8, bytes: &[u8]) -> io::Result<()> {
    let (second, rest) = words::split_byte(bytes);
    match operation {
        b"extended" => wire::print_extended(out, first, second, rest),
        b"extended-length" => wire::print_extended_length(out, first, second, rest),
        b"inside" => commands::print_inside(out, rest, first.into(), second.into()),
        b"status" => replies::print_status_of(out, first, second, words::split_byte(rest).0),
        _ => write!(out, "?"),
    }
}
