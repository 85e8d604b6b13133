// A slice as contents.
ghost use Rattle.std.specs.Prelude.{◌≡◌, ◌+◌, ◌≤◌, length};
ghost use Rattle.lists.specs.Choice.{pick};
ghost use Rattle.lists.specs.Splice.{splice};
ghost use Rattle.frame.specs.Stuffing.{is_stuffed, stuff, stuff_byte};
ghost use Rattle.writer.specs.Private.{PutPair};

use crate::contents::{Contents, Counted};
use crate::stuffing::{put_byte, width};
use frame::flags;

impl Contents for &[u8] {
    ghost bytes = { λ s. s.now };

    fn len(self) -> usize {
        self.len()
    }

    // The loop has no branch on the bytes, so that the compiler turns it into vector code.
    fn count(self) -> Counted {
        let mut escapes: u8 = 0;
        let mut sum: u8 = 0;
        for b in self {
            escapes += lists::mark(*b, flags::EXTENDED_START, flags::ESCAPE);
            sum ^= *b;
        }
        Counted { escapes, sum }
    }

    // A slice of which no byte is sent as two is copied as it is.
    fn put(self, counted: Counted, out: &mut [u8], from: usize) -> usize {
        if counted.escapes == 0 {
            lists::copy(self, out, from);
            return from + self.len();
        }
        put_each(self, out, from)
    }
}

// The last byte is taken by itself: every other has a byte after it, which is written over a second place that it does
// not need.
fn put_each(s: &[u8], out: &mut [u8], from: usize) -> usize
    requires { from + length (stuff s.now) ≤ length out.old }
    ensures value { result ≡ from + length (stuff s.now) }
    ensures out_after { out.new ≡ splice out.old from (stuff s.now) }
{
    let Some((last, front)) = s.split_last() else {
        return from;
    };
    let mut at = from;
    for b in front {
        at = put_pair(*b, out, at);
    }
    put_byte(*last, out, at)
}

// Writes a byte, stuffed, at an index, and answers the next index. It writes two places in any case, so there is no
// branch on the byte. Of F0 to F3 the remainder is what is sent after the escape.
fn put_pair(b: u8, out: &mut [u8], at: usize) -> usize
    requires { at + 2 ≤ length out.old }
    ensures value { result ≡ at + length (stuff_byte b) }
    ensures put_pair { PutPair out.old at (stuff_byte b) out.new }
{
    out[at] = first_of(b);
    out[at + 1] = b % 4;
    at + width(b)
}

// The first byte that is sent for a byte.
fn first_of(b: u8) -> u8
    ensures { result ≡ pick (is_stuffed b) 0xF3 b }
{
    if flags::is_stuffed(b) {
        flags::ESCAPE
    } else {
        b
    }
}
