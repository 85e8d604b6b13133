// Bytes of a chunk taken up to the first that is answered.
ghost use Rattle.candidate.specs.Holder.{holder};
ghost use Rattle.candidate.specs.Feed.{opened_by, feed_held, HeldChunkIs, Opens};
ghost use Rattle.std.specs.Prelude.{◌≡◌};
ghost use Rattle.frame.specs.Flags.{role_of};

use crate::{Held, HeldChunk, Rowing};
use frame::flags;
use framing::feeds;

// Takes any number of bytes. Runs of bytes that are no flags are taken whole. A candidate that begins and ends in the
// input and may be a frame is judged as it stands, and the other flags go through `framing::calls::step`.
pub fn feed_all(bytes: &mut [u8; 118], held: Held, input: &[u8]) -> HeldChunk
    ensures held_chunk_is { HeldChunkIs bytes.new result
        (feed_held (holder bytes.old held) input.now) }
    ensures opens { Opens input.now result
        (feed_held (holder bytes.old held) input.now) }
{
    let Held { len, mode, origin } = held;
    let fed = feeds::feed(Rowing { origin }, bytes, framing::Held { len, mode }, input);
    HeldChunk {
        told: fed.told,
        held: Held {
            len: fed.held.len,
            mode: fed.held.mode,
            origin,
        },
        taken: fed.taken,
        began: fed.began,
        opened: fed.opened,
    }
}

// Where the last start flag is known to be, after one byte more: at that byte's own place where it is a start flag, and
// where it was before any other byte.
pub fn opened_by<T: Copy>(b: u8, before: T, place: T) -> T
    ensures { result ≡ opened_by (role_of b) before place }
{
    if matches!(b, flags::EXTENDED_START | flags::STANDARD_START) {
        return place;
    }
    before
}
