// CSAFE frames: one slice read, and the bytes between two flags judged.
// Document 01, "Frames on the wire"; document 02, No. 9.
#![tactic(auto)]

pub mod address;
mod bytes;
mod candidate;
pub mod flags;
mod front;

ghost use Rattle.std.specs.Prelude.{◌≡◌, ◌++◌, false, ◌+◌, ◌≤◌, length, take, drop};
ghost use Rattle.answer.specs.Answer.{refused};
ghost use Rattle.frame.specs.Flags.{candidate_of};
ghost use Rattle.frame.specs.Stuffing.{unstuff};
ghost use Rattle.frame.specs.Verdict.{verdict};
ghost use Rattle.frame.specs.Origin.{admit};
ghost use Rattle.frame.specs.Answers.{read_means, judge_answer, read_answer, read_out, left_in};
ghost use Rattle.frame.specs.Leading.{open_count, leading_count};
ghost use Rattle.frame.specs.Private.{unstuffed_bytes, judge_whole, PlainSum, open_verdict};
ghost use Rattle.frame.specs.Private.{header_kind, admits, Admitted, Examines};

use answer::Refusal;
use candidate::Sound;

// Where bytes come from, or are to go: the line as it is, or a trace that was kept of one. Live, standard frames are
// refused, because they name no sender.
#[derive(Clone, Copy)]
pub enum Origin {
    Live,
    Trace,
}

impl Origin {
    // Refuses a frame that may not come from here: live, it has to name its sender.
    fn admit(self, header: Header) -> Result<(), Refusal>
        ensures { Admitted (admits self (header_kind header)) result }
    {
        match (self, header) {
            (Origin::Live, Header::Plain) => Err(Refusal::Unnamed),
            _ => Ok(()),
        }
    }
}

// The two kinds of frame.
#[derive(Clone, Copy)]
pub enum Kind {
    Standard,
    Extended,
}

// The kind of a frame with its addresses, which only an extended one has.
#[derive(Clone, Copy)]
pub enum Header {
    Plain,
    Addressed { to: u8, from: u8 },
}

// What is told of a frame: its header and the number of its contents bytes.
#[derive(Clone, Copy)]
pub struct Outline {
    pub header: Header,
    pub len: usize,
}

// The answer to reading the candidate that a slice begins with, and how many bytes it has with its flags. A slice that
// begins with no closed candidate has 0 bytes taken and is refused with 6.
// Stays a number that may be 0: the clause `taken_value` of `read_leading` says so.
#[derive(Clone, Copy)]
pub struct Leading {
    pub read: Result<Outline, Refusal>,
    pub taken: usize,
}

// Reads a slice that is to be one frame, and puts its contents first in the output. Refusals 6, 2, 3, 4, 5, 17, on the
// live line alone, and 1.
pub fn read_frame(origin: Origin, wire: &[u8], out: &mut [u8]) -> Result<Outline, Refusal>
    ensures result_value { read_means result ≡ read_answer (admit origin (verdict wire.now)) (length out.old) }
    ensures out_after { out.new ≡ read_out (admit origin (verdict wire.now)) out.old }
{
    if !candidate::is_bounded(wire) {
        return Err(Refusal::Truncated);
    }
    let n = wire.len();
    let kind = flags::kind_of(wire[0]);
    let body = &wire[1..n - 1];
    let plain = candidate::plain_sum(body);
    read_body(origin, kind, body, plain, out)
}

// Reads the candidate that a slice begins with: a start flag, and the stop flag as the next flag, with any number of
// bytes between them. What follows does not matter. A slice that begins with no closed candidate has 0 bytes taken and
// is refused with 6. Refusals 6, 2, 3, 4, 5, 17, on the live line alone, and 1.
pub fn read_leading(origin: Origin, s: &[u8], out: &mut [u8]) -> Leading
    ensures taken_value { result.taken ≡ leading_count s.now }
    ensures read_value { read_means result.read ≡ read_answer (admit origin (verdict (take result.taken s.now)))
        (length out.old) }
    ensures out_after { out.new ≡ read_out (admit origin (verdict (take result.taken s.now)))
        out.old }
{
    if !front::starts(s) {
        return no_leading();
    }
    let kind = flags::kind_of(s[0]);
    read_open(origin, kind, &s[1..], out)
}

// Judges the candidate that a start flag of this kind, the first `len` bytes of an array (all where it has fewer) and
// the stop flag make. The contents of an accepted frame are brought to the front; a refusal changes nothing. Refusals 6,
// 2, 3, 4, 5 and, on the live line alone, 17. It is one function for all its callers, because a line reader calls
// it for few of its bytes, and with a copy of it would save and restore more registers for each byte.
#[inline(never)]
pub fn judge_array(
    origin: Origin,
    kind: Kind,
    bytes: &mut [u8; 118],
    len: usize,
) -> Result<Outline, Refusal>
    ensures result_value { read_means result
        ≡ judge_answer (admit origin (verdict (candidate_of kind (take len bytes.old)))) }
    ensures bytes_after { bytes.new
        ≡ left_in (admit origin (verdict (candidate_of kind (take len bytes.old)))) bytes.old }
{
    let held = len.min(bytes.len());
    judge_in_place(origin, kind, &mut bytes[..held])
}

// Judges a slice of any length, as `judge_array` does the first bytes of an array.
#[tactic(auto, using(crate::proofs::ContentsLaws::refusing))]
fn judge_in_place(origin: Origin, kind: Kind, body: &mut [u8]) -> Result<Outline, Refusal>
    ensures result_value { read_means result ≡ judge_answer (admit origin (judge_whole kind body.old)) }
    ensures body_after { body.new ≡ left_in (admit origin (judge_whole kind body.old)) body.old }
{
    let plain = candidate::plain_sum(body);
    let Sound { header, start, len } = judge_body(origin, kind, body, plain)?;
    bring_contents(body, start, len);
    Ok(Outline { header, len })
}

fn no_leading() -> Leading
    ensures read_value { read_means result.read ≡ refused 6 }
    ensures taken_value { result.taken ≡ 0 }
{
    Leading {
        read: Err(Refusal::Truncated),
        taken: 0,
    }
}

// Reads the candidate of this kind whose start flag stands right before a slice.
fn read_open(origin: Origin, kind: Kind, rest: &[u8], out: &mut [u8]) -> Leading
    ensures taken_value { result.taken ≡ open_count rest.now }
    ensures read_value { read_means result.read ≡ read_answer (admit origin (open_verdict kind rest.now))
        (length out.old) }
    ensures out_after { out.new ≡ read_out (admit origin (open_verdict kind rest.now))
        out.old }
{
    let run = front::plain_run(rest);
    let end = front::first_flag(rest, run.len);
    if !front::is_stop_at(rest, end) {
        return no_leading();
    }
    let plain = if end == run.len && end <= candidate::BODY_LIMIT {
        Some(run.sum)
    } else {
        None
    };
    let read = read_body(origin, kind, &rest[..end], plain, out);
    Leading {
        read,
        taken: end + 2,
    }
}

// Reads what stands between a start flag of this kind and a stop flag; given is its exclusive or, where it is known that no
// byte of it is F0 to F3. The contents are put first in the output, where there is room for them. Each caller has a copy
// of its own for a body without F0 to F3, because most are and take few steps; the others are read by one function.
#[inline(always)]
fn read_body(
    origin: Origin,
    kind: Kind,
    body: &[u8],
    plain: Option<u8>,
    out: &mut [u8],
) -> Result<Outline, Refusal>
    requires { PlainSum body.now plain }
    ensures result_value { read_means result
        ≡ read_answer (admit origin (judge_whole kind body.now)) (length out.old) }
    ensures out_after { out.new ≡ read_out (admit origin (judge_whole kind body.now)) out.old }
{
    match plain {
        Some(_) => read_judged(origin, kind, body, plain, out),
        None => read_stuffed(origin, kind, body, out),
    }
}

// Reads any body, flags and escapes among its bytes.
#[inline(never)]
fn read_stuffed(origin: Origin, kind: Kind, body: &[u8], out: &mut [u8]) -> Result<Outline, Refusal>
    ensures result_value { read_means result
        ≡ read_answer (admit origin (judge_whole kind body.now)) (length out.old) }
    ensures out_after { out.new ≡ read_out (admit origin (judge_whole kind body.now)) out.old }
{
    read_judged(origin, kind, body, None, out)
}

// Judges a body, as `read_body` is given it, and reads it.
#[inline(always)]
fn read_judged(
    origin: Origin,
    kind: Kind,
    body: &[u8],
    plain: Option<u8>,
    out: &mut [u8],
) -> Result<Outline, Refusal>
    requires { PlainSum body.now plain }
    ensures result_value { read_means result
        ≡ read_answer (admit origin (judge_whole kind body.now)) (length out.old) }
    ensures out_after { out.new ≡ read_out (admit origin (judge_whole kind body.now)) out.old }
{
    let found = judge_body(origin, kind, body, plain)?;
    if out.len() < found.len {
        return Err(Refusal::NoRoom);
    }
    copy_contents(&body[found.start..], found.len, out);
    Ok(Outline {
        header: found.header,
        len: found.len,
    })
}

// The verdict on such a body, at an origin.
#[inline(always)]
fn judge_body(origin: Origin, kind: Kind, body: &[u8], plain: Option<u8>) -> Result<Sound, Refusal>
    requires { PlainSum body.now plain }
    ensures { Examines (admit origin (judge_whole kind body.now)) body.now result }
{
    let found = candidate::examine(kind, body, plain)?;
    origin.admit(found.header)?;
    Ok(found)
}

// Puts the first `len` bytes, unstuffed, first in the output; `rest` holds one byte more. Where it is as long as its
// unstuffed bytes no escape stands in it, and it is copied as it is. Each caller has a copy of its own, as of `read_body`.
#[inline(always)]
fn copy_contents(rest: &[u8], len: usize, out: &mut [u8])
    requires rest_len { length (unstuffed_bytes (unstuff false rest.now)) ≡ len + 1 }
    requires len_in_bounds { len ≤ length out.old }
    ensures { out.new ≡ take len (unstuffed_bytes (unstuff false rest.now))
        ++ drop len out.old }
{
    // A call of the C library costs as much as the rest of reading an empty frame.
    if len == 0 {
        return;
    }
    if rest.len() == len + 1 {
        out[..len].copy_from_slice(&rest[..len]);
        return;
    }
    let end = candidate::last_at(rest);
    candidate::unstuff_into(&rest[..end], out)
}

// Brings the first `len` unstuffed bytes after an index to the front; one more stands after them. Where no escape stands
// among them they are moved as they are, and after no addresses not at all.
fn bring_contents(s: &mut [u8], start: usize, len: usize)
    requires s_len { length (unstuffed_bytes (unstuff false (drop start s.old))) ≡ len + 1 }
    requires start_in_bounds { start ≤ length s.old }
    ensures { s.new ≡ take len (unstuffed_bytes (unstuff false (drop start s.old)))
        ++ drop len s.old }
{
    if s.len() - start == len + 1 {
        if start == 0 {
            return;
        }
        if start == 2 {
            lists::shift(s, 2, len);
            return;
        }
    }
    let end = start + candidate::last_at(&s[start..]);
    candidate::unstuff_front(s, start, end)
}
