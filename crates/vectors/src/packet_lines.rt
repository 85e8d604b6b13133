// The line reader for treadmill packets by value: fed by the byte, and by the chunk.
use crate::packets::Packet;
use crate::print::Reading;
use crate::readers::{Answer, ByteReader, Input, Reader};
use answer::Refusal;
use coscom::Outline;
use coscom_line::{LineReader, Stepped, Told};
use std::fmt;

// A packet that was read, or why it is refused, and the array whose first bytes are its data unit.
#[derive(Drop)]
pub(crate) struct Ended {
    read: Result<Outline, Refusal>,
    bytes: [u8; 254],
}

impl fmt::Display for Ended {
    fn fmt<W: fmt::Write>(&self, f: &mut fmt::Formatter<W>) -> fmt::Result {
        let packet = self
            .read
            .map(|outline| Packet::in_array(outline, &self.bytes));
        write!(f, "{}", Reading(packet))
    }
}

fn told_in(told: Told, bytes: [u8; 254]) -> Option<Ended> {
    told.map(|read| Ended { read, bytes })
}

impl Reader for LineReader {
    type Told = Ended;

    // The data unit is read from the reader afterwards.
    fn fed(self, chunk: &[u8]) -> Answer<LineReader, Ended> {
        let fed = self.feed(chunk);
        Answer {
            taken: fed.answer.taken,
            told: told_in(fed.answer.told, fed.next.bytes),
            next: fed.next,
        }
    }

    fn finished(self) -> Answer<LineReader, Ended> {
        beside(0, self.finish())
    }
}

impl ByteReader for LineReader {
    fn stepped(self, byte: u8) -> Answer<LineReader, Ended> {
        beside(1, self.step(byte))
    }
}

// The data unit stands beside the answer.
fn beside(taken: usize, step: Stepped) -> Answer<LineReader, Ended> {
    Answer {
        taken,
        told: told_in(step.answer.told, step.answer.unit),
        next: step.next,
    }
}

// A new reader.
pub(crate) fn new(groups: &[u8]) -> Input<'_, LineReader> {
    Input {
        reader: LineReader::new(),
        groups,
    }
}
