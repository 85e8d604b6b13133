// Commands in a frame's contents, by their number and by the steps of a command cursor, whether they stop a workout,
// and the items of a reply, which have the same form.
use crate::print::{Hex, Outcome};
use answer::Refusal;
use command::entries::{Cursor, Entry, Unsound};
use command::{cursor, entries, stop, traversal};
use std::io::Write;
use std::{fmt, io};

// An entry and its data.
#[derive(Clone, Copy)]
pub(crate) struct Found<'a> {
    entry: Entry,
    body: &'a [u8],
}

impl fmt::Display for Found<'_> {
    fn fmt<W: fmt::Write>(&self, f: &mut fmt::Formatter<W>) -> fmt::Result {
        let Entry { byte, start, len } = self.entry;
        write!(f, "{byte:02X}@{start}+{len}:{}", Hex(self.body))
    }
}

// ---- entries by number

fn outcome<'a>(entry: Result<Entry, Refusal>, body: &'a [u8]) -> Outcome<Found<'a>> {
    Outcome(entry.map(|entry| Found { entry, body }))
}

fn top(contents: &[u8], n: usize) -> Outcome<Found<'_>> {
    outcome(command::nth(contents, n), command::nth_data(contents, n))
}

fn inside(contents: &[u8], w: usize, n: usize) -> Outcome<Found<'_>> {
    outcome(
        command::nth_inside(contents, w, n),
        command::nth_inside_data(contents, w, n),
    )
}

pub(crate) fn item(contents: &[u8], n: usize) -> Outcome<Found<'_>> {
    outcome(
        reply::nth_item(contents, n),
        reply::nth_item_data(contents, n),
    )
}

// By the steps of a cursor from the first on.
fn by_steps(contents: &[u8], n: usize) -> Outcome<Found<'_>> {
    let entry = cursor::nth_by_steps(contents, n);
    outcome(entry, entries::found_part(contents, entry))
}

// Stay three parameters, here and in the operations below: each is what an operation is given, and no more.
pub(crate) fn print_command(out: &mut impl Write, contents: &[u8], n: usize) -> io::Result<()> {
    write!(out, " nth={}", top(contents, n))?;
    write!(out, " by-steps={}", by_steps(contents, n))
}

pub(crate) fn print_inside(
    out: &mut impl Write,
    contents: &[u8],
    w: usize,
    n: usize,
) -> io::Result<()> {
    write!(out, " nth={}", inside(contents, w, n))
}

pub(crate) fn print_item(out: &mut impl Write, contents: &[u8], n: usize) -> io::Result<()> {
    write!(out, " nth={}", item(contents, n))
}

// ---- lists

// Of a list that is not sound, its first entry is printed, which is the refusal. There is one step more than there are
// commands, which is refused.
pub(crate) fn print_commands(out: &mut impl Write, contents: &[u8]) -> io::Result<()> {
    let count = entries::count(entries::COMMANDS, contents, Cursor { at: 0 });
    write!(out, " commands=[")?;
    print_top(out, contents, count.unwrap_or(1))?;
    match count {
        Ok(n) => write!(out, "] count={n}")?,
        Err(Unsound { at }) => write!(out, "] count=unsound@{at}")?,
    }
    let steps = count.unwrap_or(0).saturating_add(1);
    write!(out, " steps=[")?;
    print_steps(out, contents, steps)?;
    write!(out, "] by-steps=[")?;
    print_list(out, steps, |n| by_steps(contents, n))?;
    let stops = if stop::stops_workout(contents) {
        "yes"
    } else {
        "no"
    };
    write!(out, "] stop={stops}")
}

pub(crate) fn print_list<'a, F: Fn(usize) -> Outcome<Found<'a>>>(
    out: &mut impl Write,
    count: usize,
    nth: F,
) -> io::Result<()>
    requires { F.IsAlwaysCallable nth }
{
    for n in 0..count {
        separate(out, n)?;
        write!(out, "{}", nth(n))?;
    }
    Ok(())
}

// A comma before any entry but the first.
fn separate(out: &mut impl Write, n: usize) -> io::Result<()> {
    if n > 0 {
        write!(out, ",")?;
    }
    Ok(())
}

// The commands at the top, with what stands in wrappers.
fn print_top(out: &mut impl Write, contents: &[u8], count: usize) -> io::Result<()> {
    for n in 0..count {
        separate(out, n)?;
        match command::nth(contents, n) {
            Ok(entry) if command::is_wrapper(entry.byte) => print_wrapper(out, contents, n, entry)?,
            _ => write!(out, "{}", top(contents, n))?,
        }
    }
    Ok(())
}

fn print_wrapper(out: &mut impl Write, contents: &[u8], w: usize, entry: Entry) -> io::Result<()> {
    let Entry { byte, start, len } = entry;
    let list = command::nth_data(contents, w);
    let count = entries::count(entries::COMMANDS, list, Cursor { at: 0 });
    write!(out, "{byte:02X}@{start}+{len}{{")?;
    print_list(out, count.unwrap_or(1), |n| inside(contents, w, n))?;
    write!(out, "}}")
}

// ---- by steps

// What a cursor finds, and where it then stands.
fn step_from(contents: &[u8], at: usize) -> (Outcome<Found<'_>>, usize) {
    let step = cursor::step_from(contents, at);
    let entry = outcome(step.found, traversal::data_at(contents, at));
    (entry, step.next)
}

fn print_steps(out: &mut impl Write, contents: &[u8], count: usize) -> io::Result<()> {
    let mut at = 0;
    for n in 0..count {
        separate(out, n)?;
        let (entry, next) = step_from(contents, at);
        write!(out, "{entry}>{next}")?;
        at = next;
    }
    Ok(())
}

pub(crate) fn print_one_step(out: &mut impl Write, contents: &[u8], at: usize) -> io::Result<()> {
    let (entry, next) = step_from(contents, at);
    write!(out, " found={entry} next={next}")
}
