// CSAFE frames measured and written: document 01, "Frames on the wire"; document 02, No. 9.
#![tactic(auto)]

mod bytes;
mod contents;
mod measure;
mod number;
mod stuffing;

ghost use Rattle.std.specs.Prelude.{◌≡◌, length};
ghost use Rattle.answer.specs.Answer.{through};
ghost use Rattle.answer.specs.Draft.{draft_answer, draft_out, written_means};
ghost use Rattle.numbers.specs.Number.{bytes_of};
ghost use Rattle.frame.specs.Frame.{standard, extended, frame_of};
ghost use Rattle.writer.specs.Answers.{frame_draft, sent_draft, length_means};

use answer::Refusal;
use contents::Contents;
use frame::{Header, Origin};
use number::NumberBytes;

// How many bytes a standard frame takes on the wire, which is the room that writing it needs. Refusals 17, on the
// live line alone, and 2.
pub fn standard_length(origin: Origin, contents: &[u8]) -> Result<usize, Refusal>
    ensures { length_means result ≡ through length (sent_draft origin (standard contents.now)) }
{
    match origin {
        Origin::Trace => wire_length(Header::Plain, contents),
        Origin::Live => Err(Refusal::Unnamed),
    }
}

// How many bytes an extended frame takes on the wire, which is the room that writing it needs. Refusal 2.
pub fn extended_length(to: u8, from: u8, contents: &[u8]) -> Result<usize, Refusal>
    ensures { length_means result ≡ through length (frame_draft (extended to from contents.now)) }
{
    wire_length(Header::Addressed { to, from }, contents)
}

// Writes a standard frame. Refusals 17, on the live line alone, 2 and 1.
#[tactic(auto, unfolding(answer::specs::Draft::draft_answer, answer::specs::Draft::draft_out))]
pub fn write_standard(origin: Origin, contents: &[u8], out: &mut [u8]) -> Result<usize, Refusal>
    ensures result_value { written_means result ≡ draft_answer (sent_draft origin (standard contents.now))
        (length out.old) }
    ensures out_after { out.new ≡ draft_out (sent_draft origin (standard contents.now))
        out.old }
{
    match origin {
        Origin::Trace => write_frame(Header::Plain, contents, out),
        Origin::Live => Err(Refusal::Unnamed),
    }
}

// Writes an extended frame, to any origin. Refusals 2 and 1.
pub fn write_extended(to: u8, from: u8, contents: &[u8], out: &mut [u8]) -> Result<usize, Refusal>
    ensures result_value { written_means result ≡ draft_answer (frame_draft (extended to from contents.now))
        (length out.old) }
    ensures out_after { out.new ≡ draft_out (frame_draft (extended to from contents.now))
        out.old }
{
    write_frame(Header::Addressed { to, from }, contents, out)
}

// Writes an extended frame whose contents are `width` bytes of a number, lowest first; those past its eighth are 00. A
// caller whose few contents bytes are known needs no array for them. Refusals 2 and 1.
pub fn write_extended_number(
    to: u8,
    from: u8,
    number: u64,
    width: usize,
    out: &mut [u8],
) -> Result<usize, Refusal>
    ensures result_value { written_means result ≡ draft_answer (frame_draft (extended to from (bytes_of width number)))
        (length out.old) }
    ensures out_after { out.new ≡ draft_out (frame_draft (extended to from (bytes_of width number)))
        out.old }
{
    let header = Header::Addressed { to, from };
    write_frame(header, NumberBytes { number, width }, out)
}

#[tactic(auto, using(crate::proofs::WireLaws::draft_long))]
fn wire_length(header: Header, contents: &[u8]) -> Result<usize, Refusal>
    ensures { length_means result ≡ through length (frame_draft (frame_of header contents.now)) }
{
    Ok(measure::measure(header, contents)?.len)
}

// The length is found first, so that nothing is written where the frame does not fit.
fn write_frame<C: Contents>(header: Header, contents: C, out: &mut [u8]) -> Result<usize, Refusal>
    ensures result_value { written_means result ≡ draft_answer (frame_draft (frame_of header (C.bytes contents)))
        (length out.old) }
    ensures out_after { out.new ≡ draft_out (frame_draft (frame_of header (C.bytes contents)))
        out.old }
{
    let measured = measure::measure(header, contents)?;
    if out.len() < measured.len {
        return Err(Refusal::NoRoom);
    }
    let a = stuffing::put_header(header, out);
    let b = contents.put(measured.counted, out, a);
    stuffing::put_end(measured.counted.sum, out, b);
    Ok(measured.len)
}
