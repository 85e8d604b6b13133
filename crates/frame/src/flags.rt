// The flags of a frame, the byte that starts an escape, and tests for them: document 01, "Frames on the wire".
ghost use Rattle.std.specs.Prelude.{◌≡◌};
ghost use Rattle.frame.specs.Flags.{is_flag, kind_of};
ghost use Rattle.frame.specs.Stuffing.{is_stuffed};

use crate::Kind;

// The first byte of an extended frame.
pub const EXTENDED_START: u8 = 0xF0;

// The first byte of a standard frame.
pub const STANDARD_START: u8 = 0xF1;

// The last byte of every frame.
pub const STOP: u8 = 0xF2;

// The first of the two bytes that stand for a flag, or for this byte itself, between the flags.
pub const ESCAPE: u8 = 0xF3;

// Whether a byte starts or stops a frame.
pub fn is_flag(b: u8) -> bool
    ensures { result ≡ is_flag b }
{
    matches!(b, EXTENDED_START..=STOP)
}

// Whether a byte is sent as two between the flags.
pub fn is_stuffed(b: u8) -> bool
    ensures { result ≡ is_stuffed b }
{
    matches!(b, EXTENDED_START..=ESCAPE)
}

// The kind of frame that a start flag opens.
pub(crate) fn kind_of(start: u8) -> Kind
    ensures { result ≡ kind_of start }
{
    if start == EXTENDED_START {
        Kind::Extended
    } else {
        Kind::Standard
    }
}
