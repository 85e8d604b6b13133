// Loops over bytes that the compiler turns into vector code: a look for F0 to F3, and the exclusive or.
ghost use Rattle.std.specs.Prelude.{◌≡◌, Some, None};
ghost use Rattle.lists.specs.Choice.{pick, none_of};
ghost use Rattle.frame.specs.Checksum.{checksum};
ghost use Rattle.frame.specs.Stuffing.{is_stuffed};

use crate::flags;

// The exclusive or of all bytes.
pub(crate) fn sum_of(s: &[u8]) -> u8
    ensures { result ≡ checksum s.now }
{
    let mut sum = 0;
    for b in s {
        sum ^= *b;
    }
    sum
}

// The exclusive or of all bytes where none is F0 to F3, in one pass.
pub(crate) fn plain_sum(s: &[u8]) -> Option<u8>
    ensures { result ≡ pick (none_of is_stuffed s.now) (Some (checksum s.now)) None }
{
    let mut seen = false;
    let mut sum = 0;
    for b in s {
        seen |= flags::is_stuffed(*b);
        sum ^= *b;
    }
    (!seen).then_some(sum)
}
