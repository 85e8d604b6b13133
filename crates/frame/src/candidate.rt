// A candidate for a frame, looked at before anything is written: its shape, its escapes, its length, its checksum and
// whether it names its sender.
ghost use Rattle.std.specs.Prelude.{◌≡◌, true, false, not, ◌||◌, ◌+◌, ◌≤◌, ◌<◌, length, take, drop};
ghost use Rattle.std.specs.Prelude.{Some, None, Ok};
ghost use Rattle.std.specs.Int.Bits.{bit_xor};
ghost use Rattle.lists.specs.Choice.{pick, within, none_of};
ghost use Rattle.lists.specs.Splice.{splice};
ghost use Rattle.frame.specs.Flags.{is_flag};
ghost use Rattle.frame.specs.Stuffing.{unstuff, is_stuffed};
ghost use Rattle.frame.specs.Checksum.{checksum};
ghost use Rattle.frame.specs.Verdict.{address_count};
ghost use Rattle.frame.specs.Private.{is_bounded, next_at, scan_of, is_sound, good_pair, lower_byte, is_escape, lifts};
ghost use Rattle.frame.specs.Private.{unstuffed_bytes, last_at, header_kind, sum_of_addresses, AddressesIn, PlainSum};
ghost use Rattle.frame.specs.Private.{Tallied, WithoutHeader, CountsWhole, ExaminesWhole, long_refusal};

use crate::flags::{EXTENDED_START, STANDARD_START, STOP};
use crate::{Header, Kind, bytes, flags};
use answer::Refusal;

// The most bytes that may stand between the flags.
pub(crate) const BODY_LIMIT: usize = 118;

// The byte after an escape that is F0 more unstuffed: 00 to 03.
const ESCAPED_LIMIT: u8 = 3;

// An unstuffed byte, and the index after the stuffed ones that it is sent as.
#[derive(Clone, Copy)]
pub(crate) struct Byte {
    pub(crate) value: u8,
    pub(crate) next: usize,
}

// What one pass over stuffed bytes finds: whether a flag or an unsound escape is among them, the number of escapes, and the
// exclusive or with an escape taken as F0. Stay flags: each is gathered over all bytes beside the others.
#[derive(Clone, Copy)]
pub(crate) struct Tally {
    pub(crate) flags: bool,
    pub(crate) unsound: bool,
    pub(crate) escapes: u8,
    pub(crate) sum: u8,
}

impl Tally {
    // The same with one byte more, which another follows.
    fn with_pair(self, b: u8, after: u8) -> Tally
        requires { self.escapes < 255 }
        ensures flags_value { result.flags ≡ (self.flags || is_flag b) }
        ensures unsound_value { result.unsound ≡ (self.unsound || not (good_pair b after)) }
        ensures escapes_value { result.escapes ≡ self.escapes + pick (within 0xF3 0xF3 b) 1 0 }
        ensures sum_value { result.sum ≡ bit_xor self.sum (lower_byte b) }
    {
        Tally {
            flags: self.flags | flags::is_flag(b),
            unsound: self.unsound | is_unsound(b, after),
            escapes: self.escapes + lists::mark(b, flags::ESCAPE, flags::ESCAPE),
            sum: self.sum ^ lower(b),
        }
    }
}

// The number of bytes, and their exclusive or.
#[derive(Clone, Copy)]
pub(crate) struct Counted {
    pub(crate) len: usize,
    pub(crate) sum: u8,
}

impl Counted {
    // What is left of unstuffed bytes without their addresses.
    fn without(self, found: Addresses) -> Counted
        requires enough { address_count (header_kind found.header) ≤ self.len }
        requires summed { found.sum ≡ sum_of_addresses found.header }
        ensures { WithoutHeader found.header self result }
    {
        match found.header {
            Header::Plain => self,
            Header::Addressed { .. } => Counted {
                len: self.len - 2,
                sum: self.sum ^ found.sum,
            },
        }
    }
}

// The addresses at the start of a body, the index after them and their exclusive or.
#[derive(Clone, Copy)]
pub(crate) struct Addresses {
    pub(crate) header: Header,
    pub(crate) next: usize,
    pub(crate) sum: u8,
}

// A sound body: its header, the index of its stuffed contents and their number unstuffed.
#[derive(Clone, Copy)]
pub(crate) struct Sound {
    pub(crate) header: Header,
    pub(crate) start: usize,
    pub(crate) len: usize,
}

// Whether a slice begins with a start flag and ends with the stop flag.
#[tactic(auto, unfolding(crate::specs::Private::is_bounded))]
pub(crate) fn is_bounded(w: &[u8]) -> bool
    ensures value { result ≡ is_bounded w.now }
    ensures w_len { result ≡ true → 2 ≤ length w.now }
{
    matches!(w, [EXTENDED_START..=STANDARD_START, .., STOP])
}

// The unstuffed byte at an index of stuffed bytes.
#[tactic(auto, unfolding(crate::specs::Private::next_at))]
fn next_at(s: &[u8], at: usize) -> Result<Byte, Refusal>
    ensures { result ≡ next_at s.now at }
{
    let Some(b) = s.get(at) else {
        return Err(Refusal::TooShort);
    };
    if *b != flags::ESCAPE {
        return Ok(Byte {
            value: *b,
            next: at + 1,
        });
    }
    match s.get(at + 1) {
        Some(e) if *e <= ESCAPED_LIMIT => Ok(Byte {
            value: 0xF0 + *e,
            next: at + 2,
        }),
        _ => Err(Refusal::BadEscape),
    }
}

// How many unstuffed bytes stuffed ones are, and their exclusive or. Refused where a flag stands among them, and then
// where an escape is unsound. Where every escape is sound, each takes one byte from the number, and its two bytes have
// the exclusive or of F0 and the second. The last byte is taken by itself: none follows it to make a pair, and a loop
// whose last turn is compared with 0 is not turned into vector code. Each caller has a copy of its own, to which no answer
// goes through memory.
#[inline(always)]
fn scan_bytes(s: &[u8]) -> Result<Counted, Refusal>
    requires { length s.now ≤ 118 }
    ensures { result ≡ scan_of s.now }
{
    let [.., last] = *s else {
        return Ok(Counted { len: 0, sum: 0 });
    };
    let found = tally_pairs(s);
    if found.flags || flags::is_flag(last) {
        return Err(Refusal::Truncated);
    }
    if last == flags::ESCAPE || found.unsound {
        return Err(Refusal::BadEscape);
    }
    Ok(Counted {
        len: s.len() - found.escapes as usize,
        sum: found.sum ^ last,
    })
}

// Looks at every byte but the last, each with the one after it, in one pass. The loop has no branch on the bytes.
fn tally_pairs(s: &[u8]) -> Tally
    requires in_bounds { 1 ≤ length s.now }
    requires s_len_bound { length s.now ≤ 255 }
    ensures { Tallied s.now result }
{
    let mut found = Tally {
        flags: false,
        unsound: false,
        escapes: 0,
        sum: 0,
    };
    // Stays with an index: over `windows(2)` it is not turned into vector code, and such a body takes a third longer to read.
    for (i, after) in s[1..].iter().enumerate() {
        found = found.with_pair(s[i], *after);
    }
    found
}

// Whether a byte is an escape with none of 00 to 03 after it.
fn is_unsound(b: u8, after: u8) -> bool
    ensures { result ≡ not (good_pair b after) }
{
    b == flags::ESCAPE && ESCAPED_LIMIT < after
}

fn lower(b: u8) -> u8
    ensures { result ≡ lower_byte b }
{
    if b == flags::ESCAPE { 0xF0 } else { b }
}

// The two addresses at the start of the body of an extended frame.
// Where no byte is F0 to F3 they are taken as they are: a test for escapes costs as much as the rest of a short body.
fn two_addresses(body: &[u8], plain: Option<u8>) -> Result<Addresses, Refusal>
    requires { PlainSum body.now plain }
    ensures { AddressesIn Kind.Extended body.now result }
{
    if let (Some(_), [to, from, ..]) = (plain, body) {
        return Ok(Addresses {
            header: Header::Addressed {
                to: *to,
                from: *from,
            },
            next: 2,
            sum: *to ^ *from,
        });
    }
    let to = next_at(body, 0)?;
    let from = next_at(body, to.next)?;
    Ok(Addresses {
        header: Header::Addressed {
            to: to.value,
            from: from.value,
        },
        next: from.next,
        sum: to.value ^ from.value,
    })
}

// The exclusive or of a body, where it is not too long and no byte of it is F0 to F3. The last byte is taken by itself,
// because what is made of the exclusive or is compared with 0, as in `scan_bytes`. Each caller has a copy of its own,
// because a call costs as much as the loop over a short body.
#[inline(always)]
pub(crate) fn plain_sum(body: &[u8]) -> Option<u8>
    ensures plain { PlainSum body.now result }
    ensures finds { length body.now ≤ 118
        → result ≡ pick (none_of is_stuffed body.now) (Some (checksum body.now)) None }
{
    if BODY_LIMIT < body.len() {
        return None;
    }
    let [front @ .., last] = body else {
        return Some(0);
    };
    if flags::is_stuffed(*last) {
        return None;
    }
    let Some(sum) = bytes::plain_sum(front) else {
        return None;
    };
    Some(sum ^ *last)
}

// The verdict on what stands between a start flag of this kind and a stop flag. Where a flag stands in it, it is no whole
// candidate. Given is its exclusive or, where it is known that no byte of it is F0 to F3. Each caller has a copy of its own,
// because most bodies have no escape and take few steps.
// Stays a number with a fact, here and in five more: a type that says it would hold the body, which its callers cut anew.
#[inline(always)]
pub(crate) fn examine(kind: Kind, body: &[u8], plain: Option<u8>) -> Result<Sound, Refusal>
    requires { PlainSum body.now plain }
    ensures { ExaminesWhole kind body.now result }
{
    let whole = count(body, plain)?;
    match kind {
        Kind::Standard => {
            let found = Addresses {
                header: Header::Plain,
                next: 0,
                sum: 0,
            };
            examine_after(body, whole, found)
        }
        Kind::Extended => {
            let found = two_addresses(body, plain)?;
            examine_after(body, whole, found)
        }
    }
}

// The verdict on a body that was counted and whose addresses are known: the contents and the checksum follow, whose
// exclusive or is 0. Each kind has a copy of its own, in which the header is known.
#[inline(always)]
fn examine_after(body: &[u8], whole: Counted, found: Addresses) -> Result<Sound, Refusal>
    requires limit { length body.now ≤ 118 }
    requires scanned { Ok whole ≡ scan_of body.now }
    requires addressed { AddressesIn (header_kind found.header) body.now (Ok found) }
    ensures { ExaminesWhole (header_kind found.header) body.now result }
{
    let rest = whole.without(found);
    if rest.len < 1 {
        return Err(Refusal::TooShort);
    }
    if rest.sum != 0 {
        return Err(Refusal::BadChecksum);
    }
    Ok(Sound {
        header: found.header,
        start: found.next,
        len: rest.len - 1,
    })
}

// How many unstuffed bytes a body has, and their exclusive or.
fn count(body: &[u8], plain: Option<u8>) -> Result<Counted, Refusal>
    requires { PlainSum body.now plain }
    ensures { CountsWhole body.now result }
{
    if let Some(sum) = plain {
        return Ok(Counted {
            len: body.len(),
            sum,
        });
    }
    if BODY_LIMIT < body.len() {
        return Err(long_refusal(body));
    }
    scan_bytes(body)
}

// Why a body that is too long is refused.
fn long_refusal(body: &[u8]) -> Refusal
    ensures { result ≡ long_refusal body.now }
{
    if lists::none_within(body, EXTENDED_START, STOP) {
        return Refusal::TooLong;
    }
    Refusal::Truncated
}

// Where the last unstuffed byte of sound stuffed bytes begins: it may be sent as two.
pub(crate) fn last_at(s: &[u8]) -> usize
    ensures { result ≡ last_at s.now }
{
    match s {
        [] | [_] => 0,
        [.., flags::ESCAPE, _] => s.len() - 2,
        _ => s.len() - 1,
    }
}

// What an escape adds to the byte after it.
fn lift(b: u8) -> u8
    ensures { result ≡ lifts (is_escape b) }
{
    if b == flags::ESCAPE { 0xF0 } else { 0 }
}

// How many places of the output a stuffed byte fills: none where it is an escape.
fn fills(b: u8) -> usize
    ensures { result ≡ pick (is_escape b) 0 1 }
{
    if b == flags::ESCAPE { 0 } else { 1 }
}

// Puts sound stuffed bytes, unstuffed, first in the output. An escape is written too, and the byte after it takes its
// place, so the loop has no branch on the bytes.
#[inline(never)]
pub(crate) fn unstuff_into(s: &[u8], out: &mut [u8])
    requires s_value { is_sound (unstuff false s.now) ≡ true }
    requires s_in_bounds { length (unstuffed_bytes (unstuff false s.now)) ≤ length out.old }
    ensures { out.new ≡ splice out.old 0
        (unstuffed_bytes (unstuff false s.now)) }
{
    let mut above = 0;
    let mut k = 0;
    for b in s {
        out[k] = *b + above;
        above = lift(*b);
        k += fills(*b);
    }
}

// The same within a slice: brings the bytes between two indices, unstuffed, to the front.
pub(crate) fn unstuff_front(s: &mut [u8], from: usize, end: usize)
    requires from_le_end { from ≤ end }
    requires end_in_bounds { end ≤ length s.old }
    requires s_value { is_sound (unstuff false (drop from (take end s.old))) ≡ true }
    ensures { s.new ≡ splice s.old 0
        (unstuffed_bytes (unstuff false (drop from (take end s.old)))) }
{
    let mut above = 0;
    let mut k = 0;
    for i in from..end {
        let b = s[i];
        s[k] = b + above;
        above = lift(b);
        k += fills(b);
    }
}
