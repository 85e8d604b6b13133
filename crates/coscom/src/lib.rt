// Treadmill packets: one packet written, one slice read, and the bytes between two flags judged. Document 02, No. 3;
// source document 003.
#![tactic(auto)]

mod check;

ghost use Rattle.std.specs.Prelude.{◌≡◌, [], ◌∷◌, ◌+◌, ◌/◌, ◌%◌, ◌≤◌, length, take};
ghost use Rattle.lists.specs.Splice.{splice};
ghost use Rattle.answer.specs.Draft.{draft_answer, draft_out, written_means};
ghost use Rattle.coscom.specs.Flags.{candidate_of};
ghost use Rattle.coscom.specs.Packet.{packet, tens_digit, ones_digit};
ghost use Rattle.coscom.specs.Verdict.{judge, verdict};
ghost use Rattle.coscom.specs.Answers.{packet_draft, read_means, judge_answer, read_answer, read_out, left_in};

use answer::Refusal;

pub const START: u8 = 0x01;

pub const STOP: u8 = 0x17;

// The longest data unit. A packet has at most 256 bytes.
const UNIT_LIMIT: usize = 249;

// The bytes of a packet around its data unit: flags, header and checksum.
const AROUND_UNIT: usize = 7;

// The most bytes that may stand between the flags of a packet.
const BODY_LIMIT: usize = 254;

// The bytes of a header, which stand before the data unit.
const HEADER_LEN: usize = 3;

// The start flag and the header, which stand before the data unit on the wire.
const BEFORE_UNIT: usize = 4;

// A packet's header: a letter and two digits.
#[derive(Clone, Copy, Debug, PartialEq, Eq)]
pub struct Header {
    pub letter: u8,
    pub tens: u8,
    pub ones: u8,
}

impl Header {
    // Puts the start flag and the header first in an output, byte by byte: putting them together first takes longer.
    fn put(self, out: &mut [u8])
        requires { 4 ≤ length out.old }
        ensures { out.new ≡ splice out.old 0 (0x01 ∷ self.letter ∷ self.tens ∷ self.ones ∷ []) }
    {
        out[0] = START;
        out[1] = self.letter;
        out[2] = self.tens;
        out[3] = self.ones;
    }
}

// What is told of a packet: its header and the number of bytes of its data unit.
#[derive(Clone, Copy, Debug, PartialEq, Eq)]
pub struct Outline {
    pub header: Header,
    pub len: usize,
}

// Writes a packet. Refusals 2, 22 and 1.
pub fn write_packet(header: Header, unit: &[u8], out: &mut [u8]) -> Result<usize, Refusal>
    ensures result_value { written_means result
        ≡ draft_answer (packet_draft (packet header.letter header.tens header.ones unit.now)) (length out.old) }
    ensures out_after { out.new
        ≡ draft_out (packet_draft (packet header.letter header.tens header.ones unit.now)) out.old }
{
    if UNIT_LIMIT < unit.len() {
        return Err(Refusal::TooLong);
    }
    if !header.is_proper(unit) {
        return Err(Refusal::BadCharacter);
    }
    let n = unit.len() + AROUND_UNIT;
    if out.len() < n {
        return Err(Refusal::NoRoom);
    }
    let sum = header.checksum(unit);
    header.put(out);
    lists::copy(unit, out, BEFORE_UNIT);
    put_tail(sum, &mut out[BEFORE_UNIT + unit.len()..]);
    Ok(n)
}

// Reads a slice that is to be one packet, and puts its data unit first in the output. Refusals 6, 2, 4, 22, 5 and 1.
pub fn read_packet(wire: &[u8], out: &mut [u8]) -> Result<Outline, Refusal>
    ensures result_value { read_means result ≡ read_answer (verdict wire.now) (length out.old) }
    ensures out_after { out.new ≡ read_out (verdict wire.now) out.old }
{
    if !check::is_bounded(wire) {
        return Err(Refusal::Truncated);
    }
    let body = &wire[1..wire.len() - 1];
    let found = examine(body)?;
    if out.len() < found.len {
        return Err(Refusal::NoRoom);
    }
    lists::copy(&body[HEADER_LEN..HEADER_LEN + found.len], out, 0);
    Ok(found)
}

// Judges the candidate that the start flag, the first `len` bytes of an array (all where it has fewer) and the stop flag
// make. The data unit of an accepted packet is brought to the front; a refusal changes nothing. Refusals 6, 4, 22 and
// 5: with at most 254 bytes 2 does not occur.
// Stays an array with a length: C lends the array to line readers whole (`csafe_packet_feed`).
pub fn judge_array(bytes: &mut [u8; 254], len: usize) -> Result<Outline, Refusal>
    ensures result_value { read_means result ≡ judge_answer (verdict (candidate_of (take len bytes.old))) }
    ensures bytes_after { bytes.new
        ≡ left_in (verdict (candidate_of (take len bytes.old))) bytes.old }
{
    let held = len.min(bytes.len());
    judge_in_place(&mut bytes[..held])
}

// Judges a slice of any length, as `judge_array` does the first bytes of an array.
fn judge_in_place(body: &mut [u8]) -> Result<Outline, Refusal>
    ensures result_value { read_means result ≡ judge_answer (verdict (candidate_of body.old)) }
    ensures body_after { body.new ≡ left_in (verdict (candidate_of body.old)) body.old }
{
    let found = examine(body)?;
    lists::shift(body, HEADER_LEN, found.len);
    Ok(found)
}

// The verdict on what stands between the two flags. Refusals 6, 2, 4, 22 and 5. No byte between a packet's flags is a
// flag, so only what is no packet is looked through for one.
fn examine(body: &[u8]) -> Result<Outline, Refusal>
    ensures { read_means result ≡ judge_answer (verdict (candidate_of body.now)) }
{
    let found = judge_body(body);
    if found.is_ok() || check::is_flagless(body) {
        return found;
    }
    Err(Refusal::Truncated)
}

// The same where no flag stands in it. Refusals 2, 4, 22 and 5.
fn judge_body(body: &[u8]) -> Result<Outline, Refusal>
    ensures { read_means result ≡ judge_answer (judge body.now) }
{
    if BODY_LIMIT < body.len() {
        return Err(Refusal::TooLong);
    }
    let [letter, tens, ones, unit @ .., sum_tens, sum_ones] = body else {
        return Err(Refusal::TooShort);
    };
    let header = Header {
        letter: *letter,
        tens: *tens,
        ones: *ones,
    };
    if !header.is_proper(unit) || !check::is_digit(*sum_tens) || !check::is_digit(*sum_ones) {
        return Err(Refusal::BadCharacter);
    }
    let sum = header.checksum(unit);
    if !check::are_digits(*sum_tens, *sum_ones, sum) {
        return Err(Refusal::BadChecksum);
    }
    Ok(Outline {
        header,
        len: unit.len(),
    })
}

// Puts the checksum's two digits and the stop flag first in an output.
fn put_tail(sum: u8, out: &mut [u8])
    requires sum_bound { sum ≤ 99 }
    requires in_bounds { 3 ≤ length out.old }
    ensures { out.new ≡ splice out.old 0 (tens_digit sum ∷ ones_digit sum ∷ 0x17 ∷ []) }
{
    out[..3].copy_from_slice(&[check::tens_digit(sum), check::ones_digit(sum), STOP]);
}
