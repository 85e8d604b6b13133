// Bytes of a chunk taken up to the first that is answered.
ghost use Rattle.std.specs.Prelude.{◌≡◌, is_some};
ghost use Rattle.framing.specs.Counting.{start_after};
ghost use Rattle.framing.specs.Held.{reader};
ghost use Rattle.framing.specs.Fed.{feed_of, Feeds, WholeIn, whole_taken, stands_in};

use crate::{Held, LineProtocol, Mode, Role, Whole, calls, runs};
use answer::Refusal;

// What is told, what is held afterwards, and how many bytes were taken. `began` is how many there are up to and with the
// last start flag before the byte that is answered, and `opened` up to and with the last of all that were taken.
// Stay 0 for none: `Feeds` says both as numbers, as `candidate::Opens` does.
#[derive(Clone, Copy)]
pub struct Fed<K, T> {
    pub told: Option<Result<T, Refusal>>,
    pub held: Held<K>,
    pub taken: usize,
    pub began: usize,
    pub opened: usize,
}

// Takes any number of bytes. Runs of bytes that are no flags are taken whole. A candidate that begins and ends in the
// input may be judged as it stands, and the other flags go through `calls::step`.
pub fn feed<const ROOM: usize, P: LineProtocol<ROOM>>(
    protocol: P,
    bytes: &mut [u8; ROOM],
    held: Held<P::Kind>,
    input: &[u8],
) -> Fed<P::Kind, P::Outline>
    ensures { Feeds (P.protocol protocol) P.tells P.is_answer bytes.new input.now result
        (feed_of (P.protocol protocol) (P.bounds protocol) P.is_answer (reader bytes.old held) input.now) }
{
    let mut s = held;
    let mut i: usize = 0;
    let mut opened: usize = 0;
    // Stays a loop by index: a turn takes a whole run and the byte that ends it.
    while i < input.len() {
        let run = runs::consume(protocol, bytes, s, input, i);
        s = run.held;
        let j = run.at;
        if input.len() <= j {
            return ended(None, s, j, opened, opened);
        }
        match whole_in(protocol, bytes, s.mode, &input[j..]) {
            Some(whole) => return ended(Some(whole.told), outside(), j + whole.taken, j + 1, j + 1),
            None => {}
        }
        let b = input[j];
        let step = calls::step(protocol, bytes, s, b);
        s = step.held;
        i = j + 1;
        let began = opened;
        opened = opened_by(protocol, b, began, i);
        let told = step.told;
        if is_answer(told) {
            return ended(told, s, i, began, opened);
        }
    }
    ended(None, s, i, opened, opened)
}

// None begins where one is open.
fn whole_in<const ROOM: usize, P: LineProtocol<ROOM>>(
    protocol: P,
    bytes: &mut [u8; ROOM],
    mode: Mode<P::Kind>,
    s: &[u8],
) -> Option<Whole<P::Outline>>
    ensures is { WholeIn (P.protocol protocol) (P.bounds protocol) P.tells P.is_answer mode bytes.old bytes.new s.now
        result }
    ensures stands { whole_taken result ≡ stands_in mode (P.stands s.now) }
{
    match mode {
        Mode::Outside => protocol.whole(bytes, s),
        Mode::Inside(_) => None,
        Mode::Overlong => None,
    }
}

// Whether a call ends with what is told: a refusal is an answer as well.
fn is_answer<T: Copy>(told: Option<Result<T, Refusal>>) -> bool
    ensures { result ≡ is_some told }
{
    told.is_some()
}

// Outside of any candidate.
fn outside<K: Copy>() -> Held<K>
    ensures { result ≡ record { len = 0; mode = Mode.Outside } }
{
    Held {
        len: crate::FRESH,
        mode: Mode::Outside,
    }
}

fn ended<K: Copy, T: Copy>(
    told: Option<Result<T, Refusal>>,
    held: Held<K>,
    taken: usize,
    began: usize,
    opened: usize,
) -> Fed<K, T>
    ensures { result ≡ record { told = told; held = held; taken = taken; began = began; opened = opened } }
{
    Fed {
        told,
        held,
        taken,
        began,
        opened,
    }
}

// The place of the last start flag after one byte more: a start flag's own.
fn opened_by<const ROOM: usize, P: LineProtocol<ROOM>>(
    protocol: P,
    b: u8,
    opened: usize,
    place: usize,
) -> usize
    ensures { result ≡ start_after ((P.protocol protocol).role b) opened place }
{
    match protocol.role(b) {
        Role::Start(_) => place,
        Role::Stop => opened,
        Role::Plain => opened,
    }
}
