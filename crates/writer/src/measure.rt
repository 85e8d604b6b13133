// How long a frame is on the wire. Writing and the length calls find it here, before a byte is written.
ghost use Rattle.writer.specs.Private.{Measures};

use crate::contents::{Contents, Counted};
use crate::stuffing;
use answer::Refusal;
use frame::Header;

// The longest frame on the wire, flags and escapes included.
const WIRE_LIMIT: usize = 120;

// The longest contents that a frame can hold. Longer ones are refused before their bytes are counted, so that no sum
// wraps.
const CONTENTS_LIMIT: usize = 117;

// What measuring finds of a frame that can be sent: what was counted of its contents, and how many bytes the whole frame
// takes.
#[derive(Clone, Copy)]
pub(crate) struct Measured {
    pub counted: Counted,
    pub len: usize,
}

// Adds the start flag, the addresses, the checksum and the stop flag to the contents. Refusal 2.
pub(crate) fn measure<C: Contents>(header: Header, contents: C) -> Result<Measured, Refusal>
    ensures { Measures header (C.bytes contents) result }
{
    let unstuffed = contents.len();
    if CONTENTS_LIMIT < unstuffed {
        return Err(Refusal::TooLong);
    }
    let counted = contents.count();
    let stuffed = unstuffed + counted.escapes as usize;
    let len = stuffing::header_len(header) + stuffed + stuffing::width(counted.sum) + 1;
    if WIRE_LIMIT < len {
        return Err(Refusal::TooLong);
    }
    Ok(Measured { counted, len })
}
