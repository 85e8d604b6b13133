// The candidate that a slice begins with: where it ends, found in the pass that sums its bytes.
ghost use Rattle.std.specs.Prelude.{◌≡◌, get_or, take};
ghost use Rattle.lists.specs.Choice.{count_before};
ghost use Rattle.frame.specs.Flags.{is_start, is_flag};
ghost use Rattle.frame.specs.Stuffing.{is_stuffed};
ghost use Rattle.frame.specs.Checksum.{checksum};
ghost use Rattle.frame.specs.Leading.{is_stop_at};
ghost use Rattle.frame.specs.Private.{PlainTo};

use crate::candidate::Counted;
use crate::{bytes, flags};

// The size of a small block of bytes that are looked at together.
const SMALL_BLOCK: usize = 8;

// Whether the first byte is a start flag.
pub(crate) fn starts(s: &[u8]) -> bool
    ensures { result ≡ is_start (get_or s.now 0 0) }
{
    matches!(s, [flags::EXTENDED_START..=flags::STANDARD_START, ..])
}

// Whether the stop flag stands at an index.
pub(crate) fn is_stop_at(s: &[u8], at: usize) -> bool
    ensures { result ≡ is_stop_at s.now at }
{
    s.get(at) == Some(&flags::STOP)
}

// The index of the first flag, where the first F0 to F3 stands at an index. Of a frame without escapes that is its stop
// flag, and nothing is searched.
pub(crate) fn first_flag(s: &[u8], at: usize) -> usize
    requires { at ≡ count_before is_stuffed s.now }
    ensures { result ≡ count_before is_flag s.now }
{
    if is_stop_at(s, at) {
        return at;
    }
    at + lists::count_before(&s[at..], flags::EXTENDED_START, flags::STOP)
}

// The bytes before the first F0 to F3: whole blocks first, then small ones, then single bytes.
pub(crate) fn plain_run(s: &[u8]) -> Counted
    ensures len_value { result.len ≡ count_before is_stuffed s.now }
    ensures sum_value { result.sum ≡ checksum (take result.len s.now) }
{
    let mut run = small_blocks(s, plain_blocks(s));
    for b in &s[run.len..] {
        if flags::is_stuffed(*b) {
            return run;
        }
        run.len += 1;
        run.sum ^= *b;
    }
    run
}

// Passes over whole blocks without F0 to F3. They are counted first and summed then: two loops are faster than one that
// sums each block as it is looked at.
fn plain_blocks(s: &[u8]) -> Counted
    ensures { PlainTo s.now result.len result.sum }
{
    let len = lists::blocks_before(s, flags::EXTENDED_START, flags::ESCAPE);
    let sum = bytes::sum_of(&s[..len]);
    Counted { len, sum }
}

// Passes over small blocks without F0 to F3, from a run on. A block is looked at without a branch for each byte.
fn small_blocks(s: &[u8], from: Counted) -> Counted
    requires { PlainTo s.now from.len from.sum }
    ensures { PlainTo s.now result.len result.sum }
{
    let mut run = from;
    for block in s[from.len..].chunks_exact(SMALL_BLOCK) {
        let Some(sum) = bytes::plain_sum(block) else {
            return run;
        };
        run.len += SMALL_BLOCK;
        run.sum ^= sum;
    }
    run
}
