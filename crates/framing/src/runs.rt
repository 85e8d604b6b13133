// Runs of bytes that are no flags.
ghost use Rattle.std.specs.Prelude.{◌≡◌, ◌+◌, ◌-◌, ◌<◌, length, take, drop};
ghost use Rattle.lists.specs.Choice.{count_before};
ghost use Rattle.framing.specs.Bounded.{bounded};
ghost use Rattle.framing.specs.Held.{reader, after_run};

use crate::{Held, LineProtocol, Mode, Step, calls};

// Where a run ends, and what is held there.
#[derive(Clone, Copy)]
pub(crate) struct Consumed<K> {
    pub(crate) at: usize,
    pub(crate) held: Held<K>,
}

// Takes the bytes from an index on up to one that ends a run, or to the end. A state is made of its fields, because a
// copy of the struct copies its unused bytes too.
pub(crate) fn consume<const ROOM: usize, P: LineProtocol<ROOM>>(
    protocol: P,
    bytes: &mut [u8; ROOM],
    held: Held<P::Kind>,
    input: &[u8],
    from: usize,
) -> Consumed<P::Kind>
    requires { from < length input.now }
    ensures at { result.at ≡ from + count_before P.ends_run (drop from input.now) }
    ensures held { reader bytes.new result.held
        ≡ after_run ROOM (reader bytes.old held) (take (result.at - from) (drop from input.now)) }
{
    let len = held.len;
    let mode = held.mode;
    let at = run_end(protocol, input, from);
    if at == from {
        return Consumed {
            at,
            held: Held { len, mode },
        };
    }
    match mode {
        Mode::Outside => Consumed {
            at,
            held: Held { len, mode },
        },
        Mode::Inside(kind) => {
            let held = hold(bytes, len, kind, &input[from..at]);
            Consumed { at, held }
        }
        Mode::Overlong => Consumed {
            at,
            held: Held { len, mode },
        },
    }
}

// The index of the first byte from an index on that ends a run, or the end.
fn run_end<const ROOM: usize, P: LineProtocol<ROOM>>(
    protocol: P,
    input: &[u8],
    from: usize,
) -> usize
    requires { from < length input.now }
    ensures { result ≡ from + count_before P.ends_run (drop from input.now) }
{
    from + protocol.run(&input[from..])
}

// Holds a run behind the bytes that are held. A single byte, which many calls bring, is stored as it is.
fn hold<const ROOM: usize, K: Copy>(
    bytes: &mut [u8; ROOM],
    len: usize,
    kind: K,
    run: &[u8],
) -> Held<K>
    requires { 0 < length run.now }
    ensures { reader bytes.new result ≡ after_run ROOM (bounded bytes.old len (Mode.Inside kind)) run.now }
{
    let [b] = run else {
        return hold_all(bytes, len, kind, run);
    };
    let step: Step<K, ()> = calls::with_byte(bytes, len, kind, *b);
    step.held
}

// The same for a run of any length. One that is longer than the room left makes the candidate over-long. It is never
// inlined, because a call that holds no run is slower with the work to copy inside.
#[inline(never)]
fn hold_all<const ROOM: usize, K: Copy>(
    bytes: &mut [u8; ROOM],
    len: usize,
    kind: K,
    run: &[u8],
) -> Held<K>
    requires { 0 < length run.now }
    ensures { reader bytes.new result ≡ after_run ROOM (bounded bytes.old len (Mode.Inside kind)) run.now }
{
    if ROOM <= len {
        return overlong();
    }
    let room = ROOM - len;
    if room < run.len() {
        lists::copy(&run[..room], bytes, len);
        return overlong();
    }
    lists::copy(run, bytes, len);
    Held {
        len: len + run.len(),
        mode: Mode::Inside(kind),
    }
}

fn overlong<K: Copy>() -> Held<K>
    ensures { result ≡ record { len = 0; mode = Mode.Overlong } }
{
    Held {
        len: crate::FRESH,
        mode: Mode::Overlong,
    }
}
