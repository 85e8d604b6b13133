// Why an entry point refuses what it is given: document 01's table ("Refusal numbers"). A call that can be refused answers
// a `Result` with this error; a call that writes, with the number of bytes that it wrote.
#![tactic(auto)]

ghost use Rattle.std.specs.Prelude.{◌≡◌};
ghost use Rattle.answer.specs.Refusals.{number_of};

// A variant for each number of the table, with that number.
#[derive(Clone, Copy, Debug, PartialEq, Eq)]
pub enum Refusal {
    // The output is shorter than the result.
    NoRoom = 1,
    // A frame over 120 bytes on the wire, a packet over 256, or a reply's contents over 117.
    TooLong = 2,
    // F3 without 00 to 03 after it.
    BadEscape = 3,
    // Too few unstuffed bytes for the kind of frame, too few for a packet, or an empty reply.
    TooShort = 4,
    // The checksum differs from that of the contents, or of a packet's header and data unit.
    BadChecksum = 5,
    // Not one frame or packet from its start flag to its stop flag ("cut").
    Truncated = 6,
    // A count that is missing or runs beyond the end, or item data over 255 bytes.
    BadCount = 7,
    // A status byte that no status has.
    BadStatus = 8,
    // An address outside 01 to FC.
    BadAddress = 9,
    // A hold on an address that is held.
    AlreadyHeld = 10,
    // Token 0, or a token that does not hold the address ("not yours").
    NotHolder = 11,
    // A number outside a workout's limits.
    OutOfLimits = 12,
    // Contents that are not a programmed workout ("form").
    NotWorkout = 13,
    // A hold with token 0 ("pass").
    ZeroToken = 14,
    // No n-th command or item ("none").
    Absent = 15,
    // A byte that a line reader can't take, because it has counted as many as it counts.
    Full = 16,
    // A standard frame on the live line, which names no sender.
    Unnamed = 17,
    // A lent lease table that is not 2,048 bytes long ("desk").
    BadTable = 18,
    // A byte of a packet that is not allowed at its place ("character").
    BadCharacter = 22,
}

impl Refusal {
    // The number of the table.
    pub fn number(self) -> u8
        ensures { result ≡ number_of self }
    {
        self as u8
    }
}
