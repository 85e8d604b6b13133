// One call on a line: a byte is taken, or the input ends.
ghost use Rattle.std.specs.Prelude.{◌≡◌, List, ℕ};
ghost use Rattle.framing.specs.Reference.{byte, finish};
ghost use Rattle.framing.specs.Bounded.{bounded_turn};
ghost use Rattle.framing.specs.Held.{StepIs, reader, cut, stopped, with_byte, with_plain};

use crate::{Held, LineProtocol, Mode, Role, Step};
use answer::Refusal;

// Takes a byte. Of a chunk nothing but flags is taken so.
pub fn step<const ROOM: usize, P: LineProtocol<ROOM>>(
    protocol: P,
    bytes: &mut [u8; ROOM],
    held: Held<P::Kind>,
    b: u8,
) -> Step<P::Kind, P::Outline>
    ensures { StepIs P.tells bytes.new result
        (bounded_turn (P.protocol protocol) (P.bounds protocol) (reader bytes.old held) (byte b)) }
{
    match protocol.role(b) {
        Role::Start(kind) => restart(held.mode, Mode::Inside(kind)),
        Role::Stop => stop(protocol, bytes, held),
        Role::Plain => grow(bytes, held, b),
    }
}

// Ends the input: a candidate that is open is truncated. The array stays as it is.
pub fn end<const ROOM: usize, P: LineProtocol<ROOM>>(
    protocol: P,
    held: Held<P::Kind>,
) -> Step<P::Kind, P::Outline>
    ensures { (bytes : List ℕ) → StepIs P.tells bytes result
        (bounded_turn (P.protocol protocol) (P.bounds protocol) (reader bytes held) finish) }
{
    restart(held.mode, Mode::Outside)
}

// A start flag, or the end of input: whatever is open is truncated.
fn restart<K: Copy, T>(mode: Mode<K>, opens: Mode<K>) -> Step<K, T>
    ensures { result ≡ record { told = cut mode; held = record { len = 0; mode = opens } } }
{
    Step {
        told: truncated(mode),
        held: Held {
            len: crate::FRESH,
            mode: opens,
        },
    }
}

fn truncated<K: Copy, T>(mode: Mode<K>) -> Option<Result<T, Refusal>>
    ensures { result ≡ cut mode }
{
    match mode {
        Mode::Outside => None,
        Mode::Inside(_) => Some(Err(Refusal::Truncated)),
        Mode::Overlong => Some(Err(Refusal::Truncated)),
    }
}

// The stop flag: what is open is judged.
fn stop<const ROOM: usize, P: LineProtocol<ROOM>>(
    protocol: P,
    bytes: &mut [u8; ROOM],
    held: Held<P::Kind>,
) -> Step<P::Kind, P::Outline>
    ensures { StepIs P.tells bytes.new result
        (stopped (P.protocol protocol) (P.bounds protocol) (reader bytes.old held)) }
{
    let told = match held.mode {
        Mode::Outside => None,
        Mode::Inside(kind) => Some(protocol.judge(kind, bytes, held.len)),
        Mode::Overlong => Some(Err(Refusal::TooLong)),
    };
    Step {
        told,
        held: Held {
            len: crate::FRESH,
            mode: Mode::Outside,
        },
    }
}

// Any byte that is no flag.
fn grow<const ROOM: usize, K: Copy, T>(bytes: &mut [u8; ROOM], held: Held<K>, b: u8) -> Step<K, T>
    ensures told { result.told ≡ None }
    ensures next { reader bytes.new result.held ≡ with_plain ROOM (reader bytes.old held) b }
{
    let len = held.len;
    match held.mode {
        Mode::Outside => unmoved(len, Mode::Outside),
        Mode::Inside(kind) => with_byte(bytes, len, kind, b),
        Mode::Overlong => unmoved(len, Mode::Overlong),
    }
}

fn unmoved<K: Copy, T>(len: usize, mode: Mode<K>) -> Step<K, T>
    ensures { result ≡ record { told = None; held = record { len = len; mode = mode } } }
{
    Step {
        told: None,
        held: Held { len, mode },
    }
}

// One byte more in an open candidate.
pub(crate) fn with_byte<const ROOM: usize, K: Copy, T>(
    bytes: &mut [u8; ROOM],
    len: usize,
    kind: K,
    b: u8,
) -> Step<K, T>
    ensures told { result.told ≡ None }
    ensures next { reader bytes.new result.held ≡ with_byte ROOM bytes.old len kind b }
{
    if len < ROOM {
        bytes[len] = b;
        return unmoved(len + 1, Mode::Inside(kind));
    }
    unmoved(crate::FRESH, Mode::Overlong)
}
