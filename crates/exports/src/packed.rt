// The one number that every exported function answers.
ghost use Rattle.answer.specs.Refusals.{number_of};
ghost use Rattle.answer.specs.Draft.{written_means};
ghost use Rattle.frame.specs.Answers.{read_means};
ghost use Rattle.candidate.specs.Outcome.{told_means, ContentsFit};
ghost use Rattle.lease.specs.Answers.{lease_means};
ghost use Rattle.exports.specs.Packed.{Tells};
ghost use Rattle.exports.specs.Answers.{refusal_fields, result_fields, write_fields, read_fields, lease_fields};
ghost use Rattle.exports.specs.Answers.{WriteShort, ReadShort};
ghost use Rattle.exports.specs.LineAnswers.{line_fields};

use answer::Refusal;
use candidate::Told;
use frame::{Header, Outline};

// The kinds of frame. Stays numbers: the C interface gives a byte for the kind, and for packets their letter.
const STANDARD: u8 = 0;

const EXTENDED: u8 = 1;

// Not a kind: the line reader told nothing.
const UNTOLD: u8 = 2;

// No refusal, and no address.
const NONE: u8 = 0;

// The answer's fields, the number in the lowest bits.
#[derive(Clone, Copy)]
struct Fields {
    number: u8,
    kind: u8,
    to: u8,
    from: u8,
    len: u32,
}

fn pack(f: Fields) -> u64
    ensures { Tells result
        (record { number = f.number; kind = f.kind; to = f.to; from = f.from; len = f.len }) }
{
    let low = (f.number as u64)
        + 0x100 * (f.kind as u64)
        + 0x1_0000 * (f.to as u64)
        + 0x100_0000 * (f.from as u64);
    low + 0x1_0000_0000 * (f.len as u64)
}

// A refusal.
pub fn refused(why: Refusal) -> u64
    ensures { Tells result (refusal_fields (number_of why)) }
{
    pack(Fields {
        number: why.number(),
        kind: STANDARD,
        to: NONE,
        from: NONE,
        len: 0,
    })
}

// A result, by its three bytes and its length.
pub fn result(kind: u8, to: u8, from: u8, len: u32) -> u64
    ensures { Tells result (result_fields kind to from len) }
{
    pack(Fields {
        number: NONE,
        kind,
        to,
        from,
        len,
    })
}

// How many bytes were written, or would be, or a refusal.
pub(crate) fn of_written(written: Result<usize, Refusal>) -> u64
    requires { WriteShort (written_means written) }
    ensures { Tells result (write_fields (written_means written)) }
{
    match written {
        Ok(n) => result(STANDARD, NONE, NONE, n as u32),
        Err(why) => refused(why),
    }
}

pub(crate) fn of_read(read: Result<Outline, Refusal>) -> u64
    requires { ReadShort (read_means read) }
    ensures { Tells result (read_fields (read_means read)) }
{
    match read {
        Ok(outline) => of_outline(outline),
        Err(why) => refused(why),
    }
}

fn of_outline(outline: Outline) -> u64
    requires { ReadShort (read_means (Ok outline)) }
    ensures { Tells result (read_fields (read_means (Ok outline))) }
{
    let len = outline.len as u32;
    match outline.header {
        Header::Plain => result(STANDARD, NONE, NONE, len),
        Header::Addressed { to, from } => result(EXTENDED, to, from, len),
    }
}

pub(crate) fn of_lease(answer: Result<(), Refusal>) -> u64
    ensures { Tells result (lease_fields (lease_means answer)) }
{
    match answer {
        Ok(()) => result(STANDARD, NONE, NONE, 0),
        Err(why) => refused(why),
    }
}

pub(crate) fn of_told(told: Told) -> u64
    requires { ContentsFit 118 (told_means told) }
    ensures { Tells result (line_fields (told_means told)) }
{
    match told {
        None => result(UNTOLD, NONE, NONE, 0),
        Some(read) => of_read(read),
    }
}
