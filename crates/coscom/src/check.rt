// The tests on a packet's bytes, and its checksum.
ghost use Rattle.std.specs.Prelude.{◌≡◌, ◌+◌, ◌*◌, ◌≤◌, ◌==◌, false, length};
ghost use Rattle.lists.specs.Choice.{pick, within, none_of};
ghost use Rattle.coscom.specs.Flags.{flagless};
ghost use Rattle.coscom.specs.Packet.{packet, is_forbidden, is_proper, sum_of, covered, checksum, tens_digit, ones_digit};
ghost use Rattle.coscom.specs.Verdict.{is_bounded};

use crate::{Header, START, STOP};

// The separator of a data unit's fields, the one control character in it.
const SEPARATOR: u8 = 0x1D;

const DIGIT_ZERO: u8 = b'0';

fn is_letter(b: u8) -> bool
    ensures { result ≡ within 0x41 0x5A b }
{
    matches!(b, b'A'..=b'Z')
}

pub(crate) fn is_digit(b: u8) -> bool
    ensures { result ≡ within 0x30 0x39 b }
{
    matches!(b, b'0'..=b'9')
}

// Whether a byte may not stand in a data unit.
fn is_forbidden(b: u8) -> bool
    ensures { result ≡ is_forbidden b }
{
    !matches!(b, SEPARATOR | 0x20..=0x7E)
}

// Whether every byte may stand in a data unit. The loop has no branch on the bytes.
fn none_forbidden(s: &[u8]) -> bool
    ensures { result ≡ none_of is_forbidden s.now }
{
    let mut seen = false;
    for b in s {
        seen |= is_forbidden(*b);
    }
    !seen
}

impl Header {
    // Whether every byte of a header and a data unit is allowed at its place.
    #[tactic(auto, unfolding(crate::specs::Packet::is_proper))]
    pub(crate) fn is_proper(self, unit: &[u8]) -> bool
        ensures { result ≡ is_proper (packet self.letter self.tens self.ones unit.now) }
    {
        is_letter(self.letter) && is_digit(self.tens) && is_digit(self.ones) && none_forbidden(unit)
    }

    // The sum of a header and a data unit modulo 100.
    pub(crate) fn checksum(self, unit: &[u8]) -> u8
        requires { length unit.now ≤ 249 }
        ensures value { result ≡ checksum (covered (packet self.letter self.tens self.ones unit.now)) }
        ensures upper_bound { result ≤ 99 }
    {
        let header = u32::from(self.letter) + u32::from(self.tens) + u32::from(self.ones);
        ((header + sum_of(unit)) % 100) as u8
    }
}

// The sum of bytes. It is taken as a whole, so that the loop has no division.
fn sum_of(s: &[u8]) -> u32
    requires { length s.now ≤ 249 }
    ensures value { result ≡ sum_of s.now }
    ensures upper_bound { result ≤ 63495 }
{
    let mut total: u32 = 0;
    for b in s {
        total += u32::from(*b);
    }
    total
}

// A number below 100 as two digits.
pub(crate) fn tens_digit(n: u8) -> u8
    requires { n ≤ 99 }
    ensures { result ≡ tens_digit n }
{
    DIGIT_ZERO + n / 10
}

pub(crate) fn ones_digit(n: u8) -> u8
    ensures { result ≡ ones_digit n }
{
    DIGIT_ZERO + n % 10
}

// Whether two bytes are the digits of a number below 100.
pub(crate) fn are_digits(tens: u8, ones: u8, n: u8) -> bool
    requires { n ≤ 99 }
    ensures { result ≡ pick (tens == tens_digit n) (ones == ones_digit n) false }
{
    tens == tens_digit(n) && ones == ones_digit(n)
}

// Whether a slice begins with the start flag and ends with the stop flag.
#[tactic(auto, unfolding(crate::specs::Verdict::is_bounded))]
pub(crate) fn is_bounded(wire: &[u8]) -> bool
    ensures { result ≡ is_bounded wire.now }
{
    matches!(wire, [START, .., STOP])
}

// Whether neither flag stands in a slice. Both lie in 01 to 17, and most bytes on the line outside of it, so that one
// look is mostly enough.
pub(crate) fn is_flagless(s: &[u8]) -> bool
    ensures { result ≡ flagless s.now }
{
    lists::none_within(s, START, STOP)
        || lists::none_within(s, START, START) && lists::none_within(s, STOP, STOP)
}
