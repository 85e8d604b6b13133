// The bytes of a number as contents: a caller whose few contents bytes are known needs no array for them, and none is
// made, which is what makes a stop quick.
ghost use Rattle.numbers.specs.Number.{bytes_of};

use crate::contents::{Contents, Counted};
use crate::stuffing::put_byte;
use frame::flags;

// `width` bytes of a number, lowest first; those past its eighth are 00.
#[derive(Clone, Copy)]
pub(crate) struct NumberBytes {
    pub number: u64,
    pub width: usize,
}

impl Contents for NumberBytes {
    ghost bytes = { λ n. bytes_of n.width n.number };

    fn len(self) -> usize {
        self.width
    }

    // Stays a division at each turn, as in `put`: `width` may be more than the eight bytes that `to_le_bytes` has.
    fn count(self) -> Counted {
        let mut rest = self.number;
        let mut escapes: u8 = 0;
        let mut sum: u8 = 0;
        for _ in 0..self.width {
            let b = (rest % 256) as u8;
            escapes += lists::mark(b, flags::EXTENDED_START, flags::ESCAPE);
            sum ^= b;
            rest /= 256;
        }
        Counted { escapes, sum }
    }

    fn put(self, _counted: Counted, out: &mut [u8], from: usize) -> usize {
        let mut rest = self.number;
        let mut at = from;
        for _ in 0..self.width {
            at = put_byte((rest % 256) as u8, out, at);
            rest /= 256;
        }
        at
    }
}
