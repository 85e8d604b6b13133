// Bytes as they are sent between the flags, written into a slice.
ghost use Rattle.std.specs.Prelude.{◌≡◌, [], ◌∷◌, ◌++◌, ◌+◌, ◌≤◌, length};
ghost use Rattle.lists.specs.Splice.{splice};
ghost use Rattle.frame.specs.Stuffing.{stuff_byte};
ghost use Rattle.writer.specs.Private.{header_wire};

use frame::{Header, flags};

// How many bytes a byte takes on the wire.
pub(crate) fn width(b: u8) -> usize
    ensures { result ≡ length (stuff_byte b) }
{
    if flags::is_stuffed(b) { 2 } else { 1 }
}

// How many bytes the start flag and the addresses take.
pub(crate) fn header_len(header: Header) -> usize
    ensures { result ≡ length (header_wire header) }
{
    match header {
        Header::Plain => 1,
        Header::Addressed { to, from } => 1 + width(to) + width(from),
    }
}

// Writes the start flag and the addresses first in the output, and answers the next index.
pub(crate) fn put_header(header: Header, out: &mut [u8]) -> usize
    requires { length (header_wire header) ≤ length out.old }
    ensures value { result ≡ length (header_wire header) }
    ensures out_after { out.new ≡ splice out.old 0 (header_wire header) }
{
    match header {
        Header::Plain => {
            out[0] = flags::STANDARD_START;
            1
        }
        Header::Addressed { to, from } => {
            out[0] = flags::EXTENDED_START;
            let a = put_byte(to, out, 1);
            put_byte(from, out, a)
        }
    }
}

// Writes a byte, stuffed, at an index, and answers the next index.
// Stays an index beside the output, as in the calls like it: the clauses say where in the whole output the bytes stand.
pub(crate) fn put_byte(b: u8, out: &mut [u8], at: usize) -> usize
    requires { at + length (stuff_byte b) ≤ length out.old }
    ensures value { result ≡ at + length (stuff_byte b) }
    ensures out_after { out.new ≡ splice out.old at (stuff_byte b) }
{
    if flags::is_stuffed(b) {
        out[at] = flags::ESCAPE;
        out[at + 1] = b - flags::EXTENDED_START;
        return at + 2;
    }
    out[at] = b;
    at + 1
}

// Writes the checksum, stuffed, at an index, and the stop flag after it.
pub(crate) fn put_end(sum: u8, out: &mut [u8], at: usize)
    requires { at + length (stuff_byte sum) + 1 ≤ length out.old }
    ensures { out.new ≡ splice out.old at (stuff_byte sum ++ (0xF2 ∷ [])) }
{
    let end = put_byte(sum, out, at);
    out[end] = flags::STOP;
}
