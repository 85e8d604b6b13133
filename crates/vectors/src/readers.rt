// Line readers, of rowing monitors and of treadmills, and the calls on them.
ghost use Rattle.std.specs.Iterator.{at_most};
ghost use Rattle.vectors.specs.Feeding.{calls_left};

use crate::words;
use crate::words::ROOM;
use std::io::Write;
use std::{fmt, io};

pub(crate) trait Reader: Copy {
    // What a call tells: what was read, or why it is refused.
    type Told: fmt::Display + Drop;

    // A call that takes bytes of a chunk.
    fn fed(self, chunk: &[u8]) -> Answer<Self, Self::Told>;

    fn finished(self) -> Answer<Self, Self::Told>;
}

// A reader that also takes a byte alone.
pub(crate) trait ByteReader: Reader {
    fn stepped(self, byte: u8) -> Answer<Self, Self::Told>;
}

// How many bytes a call took, what it tells, if anything, and the reader afterwards.
#[derive(Drop)]
pub(crate) struct Answer<R, T> {
    pub(crate) taken: usize,
    pub(crate) told: Option<T>,
    pub(crate) next: R,
}

// A reader, and the groups of bytes that it is given.
#[derive(Clone, Copy)]
pub(crate) struct Input<'a, R> {
    pub(crate) reader: R,
    pub(crate) groups: &'a [u8],
}

// ---- by the chunk

// The calls that give a reader a chunk, and again what a call did not take of it, until one takes none, each with the
// index where it begins. An empty chunk is given once.
#[derive(Drop)]
pub(crate) struct Feeding<'a, R> {
    reader: R,
    begin: usize,
    rest: Option<&'a [u8]>,
}

impl<'a, R: Reader> Feeding<'a, R> {
    pub(crate) fn new(reader: R, chunk: &'a [u8]) -> Feeding<'a, R> {
        Feeding {
            reader,
            begin: 0,
            rest: Some(chunk),
        }
    }
}

impl<'a, R: Reader> Iterator for Feeding<'a, R> {
    type Item = (usize, Answer<R, R::Told>);

    ghost remaining = { λ s. at_most (calls_left s.rest) };

    fn next(&mut self) -> Option<(usize, Answer<R, R::Told>)> {
        let rest = self.rest?;
        let begin = self.begin;
        let answer = self.reader.fed(rest);
        self.reader = answer.next;
        self.begin = begin.saturating_add(answer.taken);
        self.rest = match rest.get(answer.taken..) {
            Some(left) if answer.taken > 0 && !left.is_empty() => Some(left),
            _ => None,
        };
        Some((begin, answer))
    }
}

// The reader is finished after each group of chunks.
pub(crate) fn feed<R: Reader>(out: &mut impl Write, input: Input<'_, R>) -> io::Result<()> {
    let mut reader = input.reader;
    for group in input.groups.split(|b| *b == b'/') {
        reader = feed_group(out, reader, group)?;
        reader = finish(out, reader)?;
    }
    Ok(())
}

fn feed_group<R: Reader>(out: &mut impl Write, first: R, group: &[u8]) -> io::Result<R> {
    let mut reader = first;
    for chunk in group.split(|b| *b == b',') {
        let mut room = [0u8; ROOM];
        reader = feed_chunk(out, reader, words::bytes(chunk, &mut room))?;
    }
    Ok(reader)
}

fn feed_chunk<R: Reader>(out: &mut impl Write, first: R, chunk: &[u8]) -> io::Result<R> {
    let mut reader = first;
    for (_, answer) in Feeding::new(first, chunk) {
        write!(out, " taken={}", answer.taken)?;
        print_told(out, answer.told)?;
        reader = answer.next;
    }
    Ok(reader)
}

// ---- by the byte

// The reader is finished after each group of bytes.
pub(crate) fn step<R: ByteReader>(out: &mut impl Write, input: Input<'_, R>) -> io::Result<()> {
    let mut reader = input.reader;
    for group in input.groups.split(|b| *b == b'/') {
        let mut room = [0u8; ROOM];
        let bytes = words::bytes(group, &mut room);
        reader = step_bytes(out, reader, bytes, |told| told)?;
        reader = finish(out, reader)?;
    }
    Ok(())
}

pub(crate) fn step_bytes<R: ByteReader, D: fmt::Display + Drop, F: Fn(R::Told) -> D>(
    out: &mut impl Write,
    first: R,
    bytes: &[u8],
    shown: F,
) -> io::Result<R>
    requires { F.IsAlwaysCallable shown }
{
    let mut reader = first;
    for (index, byte) in bytes.iter().enumerate() {
        let answer = reader.stepped(*byte);
        print_by(out, index, answer.told.map(&shown))?;
        reader = answer.next;
    }
    Ok(reader)
}

// ---- what is told

fn finish<R: Reader>(out: &mut impl Write, reader: R) -> io::Result<R> {
    let answer = reader.finished();
    write!(out, " finish:")?;
    print_told(out, answer.told)?;
    Ok(answer.next)
}

fn print_told(out: &mut impl Write, told: Option<impl fmt::Display + Drop>) -> io::Result<()> {
    match told {
        Some(told) => write!(out, "{told}"),
        None => Ok(()),
    }
}

// What is told by the byte at an index.
pub(crate) fn print_by(
    out: &mut impl Write,
    index: usize,
    told: Option<impl fmt::Display + Drop>,
) -> io::Result<()> {
    match told {
        Some(told) => write!(out, " by={index}{told}"),
        None => Ok(()),
    }
}
