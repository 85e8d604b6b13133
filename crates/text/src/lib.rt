// The lines of a listing (document 01, "Listing"; document 02, No. 7), written into an output that is lent: one for
// each answer of the line reader, and one of totals.
#![tactic(auto)]

mod buffer;
mod digits;

ghost use Rattle.std.specs.Prelude.{◌≡◌, ◌+◌, ◌≤◌, length, Some};
ghost use Rattle.answer.specs.Answer.{result as answered};
ghost use Rattle.answer.specs.Draft.{draft_answer, draft_out, written_means};
ghost use Rattle.answer.specs.Refusals.{number_of};
ghost use Rattle.command.specs.Stop.{stops_workout};
ghost use Rattle.lists.specs.Splice.{splice};
ghost use Rattle.candidate.specs.Outcome.{told_means, capacity};
ghost use Rattle.frame.specs.Frame.{frame_of};
ghost use Rattle.line.specs.Answers.{located_outcome};
ghost use Rattle.text.specs.Digits.{hex};
ghost use Rattle.text.specs.Lines.{field, hex_field, stop_text, head, call_line, totals, body, refused_body};
ghost use Rattle.text.specs.Writing.{line_room, totals_room};
ghost use Rattle.text.specs.Private.{Puts, head_room, body_room};

use answer::Refusal;
use buffer::Buffer;
use candidate::Told;
use frame::{Header, Outline};

// The room that the line of any answer fits in. That of an extended frame can need all of it.
pub const LINE_ROOM: usize = 77;

// The room that the totals fit in. They need all of it where each count has 20 digits.
pub const TOTALS_ROOM: usize = 84;

// The two upper-case hexadecimal digits of a byte.
pub fn hex_digits(b: u8) -> [u8; 2]
    ensures { result ≡ hex b }
{
    [digits::hex_digit(b / 16), digits::hex_digit(b % 16)]
}

// Writes the line of an answer, the n-th, with its position, or nothing where it is none. The contents are the first
// bytes of an array, as many as the answer says. Refusal 1. A line that could be too long for the output is made in an
// array first.
pub fn write_answer(
    told: Told,
    position: u32,
    contents: &[u8; 118],
    n: u64,
    out: &mut [u8],
) -> Result<usize, Refusal>
    ensures result_value { written_means result
        ≡ draft_answer (answered (call_line n (located_outcome (told_means told) position contents.now)))
        (length out.old) }
    ensures out_after { out.new
        ≡ draft_out (answered (call_line n (located_outcome (told_means told) position contents.now)))
        out.old }
    ensures length_bound { length (call_line n (located_outcome (told_means told) position contents.now)) ≤ line_room }
{
    let Some(told) = told else {
        return Ok(0);
    };
    if out.len() < LINE_ROOM {
        // Stays an array, here and below: the library has no heap.
        let mut room = [0u8; LINE_ROOM];
        let len = put_line(told, position, contents, n, &mut room);
        return write_bytes(&room[..len], out);
    }
    Ok(put_line(told, position, contents, n, out))
}

// Writes the totals. Refusal 1.
pub fn write_totals(
    frames: u64,
    refusals: u64,
    strays: u64,
    out: &mut [u8],
) -> Result<usize, Refusal>
    ensures result_value { written_means result
        ≡ draft_answer (answered (totals frames refusals strays)) (length out.old) }
    ensures out_after { out.new ≡ draft_out (answered (totals frames refusals strays)) out.old }
    ensures length_bound { length (totals frames refusals strays) ≤ totals_room }
{
    if out.len() < TOTALS_ROOM {
        let mut room = [0u8; TOTALS_ROOM];
        let len = put_totals(frames, refusals, strays, &mut room);
        return write_bytes(&room[..len], out);
    }
    Ok(put_totals(frames, refusals, strays, out))
}

// Writes bytes that stand elsewhere. Refusal 1.
#[tactic(auto, unfolding(answer::specs::Draft::draft_answer, answer::specs::Draft::draft_out))]
pub fn write_bytes(s: &[u8], out: &mut [u8]) -> Result<usize, Refusal>
    ensures result_value { written_means result ≡ draft_answer (answered s.now) (length out.old) }
    ensures out_after { out.new ≡ draft_out (answered s.now) out.old }
{
    if out.len() < s.len() {
        return Err(Refusal::NoRoom);
    }
    out[..s.len()].copy_from_slice(s);
    Ok(s.len())
}

// Makes a line first in an output that has room for any.
// Stays a call: `write_answer` is then small enough to be compiled into its callers, and its answer is not stored.
#[inline(never)]
fn put_line(
    told: Result<Outline, Refusal>,
    position: u32,
    contents: &[u8; 118],
    n: u64,
    out: &mut [u8],
) -> usize
    requires { line_room ≤ length out.old }
    ensures put { out.new
        ≡ splice out.old 0 (call_line n (located_outcome (told_means (Some told)) position contents.now)) }
    ensures value { result
        ≡ length (call_line n (located_outcome (told_means (Some told)) position contents.now)) }
    ensures upper_bound { result ≤ line_room }
{
    let mut line = Buffer::new(out);
    line.put_told(told, position, contents, n);
    line.len()
}

// Makes the totals first in an output that has room for any.
fn put_totals(frames: u64, refusals: u64, strays: u64, out: &mut [u8]) -> usize
    requires { totals_room ≤ length out.old }
    ensures put { out.new ≡ splice out.old 0 (totals frames refusals strays) }
    ensures value { result ≡ length (totals frames refusals strays) }
    ensures upper_bound { result ≤ totals_room }
{
    let mut line = Buffer::new(out);
    line.put_counts(frames, refusals, strays);
    line.len()
}

#[tactic(auto, using(crate::proofs::DigitLaws::fields))]
impl Buffer<'_> {
    fn put_told(&mut self, told: Result<Outline, Refusal>, position: u32, contents: &[u8], n: u64)
        requires contents_len_bound { length contents.now ≤ capacity }
        requires room { self.old.len + line_room ≤ length self.old.bytes.now }
        ensures put { Puts self.old self.new
            (call_line n (located_outcome (told_means (Some told)) position contents.now)) }
        ensures upper_bound { self.new.len ≤ self.old.len + line_room }
    {
        self.put_head(n, position);
        match told {
            Ok(outline) => {
                let part = command::entries::part(contents, 0, outline.len);
                self.put_frame(outline.header, part);
            }
            Err(why) => self.put_refused(why),
        }
    }

    // The head of a line: its number and its position.
    fn put_head(&mut self, n: u64, position: u32)
        requires { self.old.len + head_room ≤ length self.old.bytes.now }
        ensures put { Puts self.old self.new (head n position) }
        ensures upper_bound { self.new.len ≤ self.old.len + head_room }
    {
        self.put_field(b"n=", n);
        self.put_field(b" at=", u64::from(position));
    }

    // The bodies, of a refusal and of a frame.
    fn put_refused(&mut self, why: Refusal)
        requires { self.old.len + body_room ≤ length self.old.bytes.now }
        ensures put { Puts self.old self.new (refused_body (number_of why)) }
        ensures upper_bound { self.new.len ≤ self.old.len + body_room }
    {
        self.put_field(b" kind=refused code=", u64::from(why.number()));
        self.put(b"\n");
    }

    fn put_frame(&mut self, header: Header, contents: &[u8])
        requires contents_len_bound { length contents.now ≤ capacity }
        requires room { self.old.len + body_room ≤ length self.old.bytes.now }
        ensures put { Puts self.old self.new (body (answered (frame_of header contents.now))) }
        ensures upper_bound { self.new.len ≤ self.old.len + body_room }
    {
        let len = contents.len() as u64;
        match header {
            Header::Plain => self.put_field(b" kind=std len=", len),
            Header::Addressed { to, from } => {
                self.put_hex_field(b" kind=ext to=", to);
                self.put_hex_field(b" from=", from);
                self.put_field(b" len=", len);
            }
        }
        self.put_stop(contents);
    }

    fn put_counts(&mut self, frames: u64, refusals: u64, strays: u64)
        requires { self.old.len + totals_room ≤ length self.old.bytes.now }
        ensures put { Puts self.old self.new (totals frames refusals strays) }
        ensures upper_bound { self.new.len ≤ self.old.len + totals_room }
    {
        self.put_field(b"frames=", frames);
        self.put_field(b" refused=", refusals);
        self.put_field(b" loose=", strays);
        self.put(b"\n");
    }

    // The end of a frame's body.
    fn put_stop(&mut self, contents: &[u8])
        requires { self.old.len + 10 ≤ length self.old.bytes.now }
        ensures put { Puts self.old self.new (stop_text (stops_workout contents.now)) }
        ensures upper_bound { self.new.len ≤ self.old.len + 10 }
    {
        if command::stop::stops_workout(contents) {
            self.put(b" stop=yes\n");
        } else {
            self.put(b" stop=no\n");
        }
    }

    // A word and a number. The room that is asked for is what they need.
    fn put_field(&mut self, word: &[u8], v: u64)
        requires { self.old.len + length (field word.now v) ≤ length self.old.bytes.now }
        ensures { Puts self.old self.new (field word.now v) }
    {
        self.put(word);
        self.put_decimal(v);
    }

    fn put_hex_field(&mut self, word: &[u8], v: u8)
        requires { self.old.len + (length word.now + 2) ≤ length self.old.bytes.now }
        ensures { Puts self.old self.new (hex_field word.now v) }
    {
        self.put(word);
        self.put_two(digits::hex_digit(v / 16), digits::hex_digit(v % 16));
    }
}
