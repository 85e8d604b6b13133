// A reply in a frame's contents, and the names of a status's parts.
use crate::commands;
use crate::print::{Hex, first, written};
use crate::words::ROOM;
use answer::Refusal;
use command::entries::Entry;
use reply::Reply;
use reply::status::Status;
use std::io;
use std::io::Write;

pub(crate) fn print_reply(out: &mut impl Write, contents: &[u8]) -> io::Result<()> {
    match reply::read_reply(contents) {
        Ok(Reply { status, items }) => {
            let toggle = u8::from(status.toggle());
            let previous = status.previous();
            let state = status.state();
            write!(
                out,
                " reply=toggle:{toggle},previous:{previous},state:{state},items:["
            )?;
            commands::print_list(out, items, |n| commands::item(contents, n))?;
            write!(out, "],written:")?;
            print_again(out, contents, status, items)
        }
        Err(why) => write!(out, " reply=refused:{}", why.number()),
    }
}

// The reply written from what stands before its last item and that item, or from its status.
fn print_again(
    out: &mut impl Write,
    contents: &[u8],
    status: Status,
    items: usize,
) -> io::Result<()> {
    let mut room = [0u8; ROOM];
    let again = match items.checked_sub(1) {
        Some(last) => written(&mut room, |room| write_item_again(contents, last, room)),
        None => written(
            &mut room,
            |room| reply::write_status(status.to_byte(), room),
        ),
    };
    write!(out, "{again}")
}

// Two bytes of an item stand before its data.
fn write_item_again(contents: &[u8], n: usize, out: &mut [u8]) -> Result<usize, Refusal> {
    let Entry { byte, start, .. } = reply::nth_item(contents, n)?;
    let prior = first(contents, start.saturating_sub(2));
    reply::write_item(prior, byte, reply::nth_item_data(contents, n), out)
}

// The byte of a status that is made of its parts.
pub(crate) fn print_status_of(
    out: &mut impl Write,
    toggle: u8,
    previous: u8,
    state: u8,
) -> io::Result<()> {
    match Status::of(toggle != 0, previous, state) {
        Ok(status) => write!(out, " byte={:02X}", status.to_byte()),
        Err(why) => write!(out, " byte=refused:{}", why.number()),
    }
}

// The names in the order of document 01.
pub(crate) fn print_names(out: &mut impl Write) -> io::Result<()> {
    write!(
        out,
        " results={}",
        Hex(&[Status::OK, Status::REJECT, Status::BAD, Status::NOT_READY])
    )?;
    let states = [
        Status::ERROR,
        Status::READY,
        Status::IDLE,
        Status::HAVE_ID,
        Status::IN_USE,
        Status::PAUSE,
        Status::FINISH,
        Status::MANUAL,
        Status::OFFLINE,
    ];
    write!(out, " states={}", Hex(&states))
}
