// The line reader: by value, fed by the byte and by the chunk, and over a lent array, fed by the chunk.
use crate::print::Reading;
use crate::readers::{Answer, ByteReader, Feeding, Input, Reader};
use crate::wire::Frame;
use crate::words::ROOM;
use crate::{readers, words};
use answer::Refusal;
use candidate::Told;
use frame::{Origin, Outline};
use line::{LineReader, State, Stepped};
use std::io::Write;
use std::{fmt, io};

// A frame that was read, or why it is refused, where it began in the line, and the array whose first bytes are its
// contents.
#[derive(Drop)]
pub(crate) struct Located {
    position: u32,
    read: Result<Outline, Refusal>,
    bytes: [u8; 118],
}

impl fmt::Display for Located {
    fn fmt<W: fmt::Write>(&self, f: &mut fmt::Formatter<W>) -> fmt::Result {
        let frame = self
            .read
            .map(|outline| Frame::in_array(outline, &self.bytes));
        write!(f, " at={}{}", self.position, Reading(frame))
    }
}

// The same, with how many bytes of the array are not 0.
#[derive(Drop)]
struct Whole(Located);

impl fmt::Display for Whole {
    fn fmt<W: fmt::Write>(&self, f: &mut fmt::Formatter<W>) -> fmt::Result {
        let nonzero = self.0.bytes.iter().filter(|b| **b != 0).count();
        write!(f, "{} nonzero={nonzero}", self.0)
    }
}

fn told_at(told: Told, position: u32, bytes: [u8; 118]) -> Option<Located> {
    told.map(|read| Located {
        position,
        read,
        bytes,
    })
}

// ---- by value

impl Reader for LineReader {
    type Told = Located;

    // The contents are read from the reader afterwards.
    fn fed(self, chunk: &[u8]) -> Answer<LineReader, Located> {
        let fed = self.feed(chunk);
        Answer {
            taken: fed.answer.taken,
            told: told_at(fed.answer.told, fed.answer.position, fed.next.bytes),
            next: fed.next,
        }
    }

    fn finished(self) -> Answer<LineReader, Located> {
        beside(0, self.finish())
    }
}

impl ByteReader for LineReader {
    fn stepped(self, byte: u8) -> Answer<LineReader, Located> {
        beside(1, self.step(byte))
    }
}

// The contents stand beside the answer.
fn beside(taken: usize, step: Stepped) -> Answer<LineReader, Located> {
    let answer = step.answer;
    Answer {
        taken,
        told: told_at(answer.told, answer.position, answer.contents),
        next: step.next,
    }
}

// ---- over a lent array

#[derive(Clone, Copy)]
struct Lent {
    bytes: [u8; 118],
    state: State,
}

impl Reader for Lent {
    type Told = Located;

    fn fed(self, chunk: &[u8]) -> Answer<Lent, Located> {
        let mut bytes = self.bytes;
        let step = line::feed_in(&mut bytes, self.state, chunk);
        Answer {
            taken: step.taken,
            told: told_at(step.told, step.position, bytes),
            next: Lent {
                bytes,
                state: step.state,
            },
        }
    }

    fn finished(self) -> Answer<Lent, Located> {
        let step = line::finish_in(self.state);
        Answer {
            taken: 0,
            told: told_at(step.told, step.position, self.bytes),
            next: Lent {
                state: step.state,
                ..self
            },
        }
    }
}

// ---- examples

// A new reader.
pub(crate) fn new(origin: Origin, groups: &[u8]) -> Input<'_, LineReader> {
    Input {
        reader: LineReader::new(origin),
        groups,
    }
}

// A reader that has taken as many bytes as the first argument says.
pub(crate) fn counted(origin: Origin, arguments: &[u8]) -> Input<'_, LineReader> {
    let (count, groups) = words::split_word(arguments);
    let new = LineReader::new(origin);
    let state = State {
        count: words::low(words::number(count)),
        ..new.state
    };
    Input {
        reader: LineReader { state, ..new },
        groups,
    }
}

// Both readers get each group of bytes, and a finish after it.
pub(crate) fn run(out: &mut impl Write, input: Input<'_, LineReader>) -> io::Result<()> {
    let mut reader = input.reader;
    let mut lent = Lent {
        bytes: [0; 118],
        state: reader.state,
    };
    for group in input.groups.split(|b| *b == b'/') {
        let mut room = [0u8; ROOM];
        let bytes = words::bytes(group, &mut room);
        reader = step_all(out, reader, bytes)?;
        lent = feed_all(out, lent, bytes)?;
    }
    Ok(())
}

fn step_all(out: &mut impl Write, first: LineReader, bytes: &[u8]) -> io::Result<LineReader> {
    write!(out, " step:")?;
    let reader = readers::step_bytes(out, first, bytes, Whole)?;
    let last = reader.finished();
    readers::print_by(out, bytes.len(), last.told.map(Whole))?;
    Ok(last.next)
}

// An answer is by the last byte that a call took or, where it took none, by the first, which is refused.
fn feed_all(out: &mut impl Write, first: Lent, bytes: &[u8]) -> io::Result<Lent> {
    write!(out, " feed_in:")?;
    let mut reader = first;
    for (begin, answer) in Feeding::new(first, bytes) {
        let index = begin.saturating_add(answer.taken.saturating_sub(1));
        readers::print_by(out, index, answer.told)?;
        reader = answer.next;
    }
    let last = reader.finished();
    readers::print_by(out, bytes.len(), last.told)?;
    Ok(last.next)
}
