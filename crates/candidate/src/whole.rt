// Candidates that stand whole in a chunk. They are judged as they stand, and only what the array has to hold of them is
// copied.
ghost use Rattle.std.specs.Prelude.{◌≡◌};
ghost use Rattle.frame.specs.Answers.{read_means};
ghost use Rattle.candidate.specs.Private.{contents_count, Judges};

use answer::Refusal;
use frame::{Origin, Outline};
use framing::Whole;

// The most bytes of a candidate that is judged as it stands: what the array holds, and its two flags.
const WHOLE_LIMIT: usize = 120;

// Judges the candidate that the input begins with, where none is open before it. Behind its contents the array gets the
// bytes that stand between its flags, because that is what it holds where they came singly. A candidate that is too long
// for the array counts as none, and its bytes are fed like all others. It is no frame, so reading it has changed nothing.
pub(crate) fn judge(origin: Origin, bytes: &mut [u8; 118], input: &[u8]) -> Option<Whole<Outline>>
    ensures { Judges origin bytes.old input.now bytes.new result }
{
    let leading = frame::read_leading(origin, input, bytes);
    let read = leading.read;
    let taken = leading.taken;
    if taken == 0 || WHOLE_LIMIT < taken {
        return None;
    }
    let n = contents_len(read);
    lists::copy(&input[n + 1..taken - 1], bytes, n);
    Some(Whole { told: read, taken })
}

fn contents_len(read: Result<Outline, Refusal>) -> usize
    ensures { result ≡ contents_count (read_means read) }
{
    read.map_or(0, |outline| outline.len)
}
