// The two numbers that hold the state of a line reader. In the first the mode is the lowest two bits, and the length
// stands above them; in the second the position of the last start flag is the lower half, and the count the upper. The
// origin is in neither, so that no number makes a live reader one of a trace.
ghost use Rattle.std.specs.Prelude.{◌≡◌, ◌%◌, ◌<◌, ◌^◌};
ghost use Rattle.exports.specs.LineState.{digit_of, mode_of, packed_state, packed_counts, state_in};

use candidate::{Held, Mode};
use frame::{Kind, Origin};
use line::State;

// Stays numbers: the C interface holds a reader's state in them.
const OUTSIDE: u64 = 0;

const IN_STANDARD: u64 = 1;

const IN_EXTENDED: u64 = 2;

const OVERLONG: u64 = 3;

// How many modes there are.
const MODES: u64 = 4;

// How many values a position of 32 bits has.
const POSITIONS: u64 = 0x1_0000_0000;

fn mode_in(number: u64) -> Mode
    ensures { result ≡ mode_of (number % 4) }
{
    match number % MODES {
        OUTSIDE => Mode::Outside,
        IN_STANDARD => Mode::Inside(Kind::Standard),
        IN_EXTENDED => Mode::Inside(Kind::Extended),
        _ => Mode::Overlong,
    }
}

pub(crate) fn state_in(origin: Origin, number: u64, counts: u64) -> State
    ensures { result ≡ state_in origin number counts }
{
    let mode = mode_in(number);
    State {
        held: Held {
            len: (number / MODES) as usize,
            mode,
            origin,
        },
        start: (counts % POSITIONS) as u32,
        count: (counts / POSITIONS) as u32,
    }
}

fn digit_of(mode: Mode) -> u64
    ensures value { result ≡ digit_of mode }
    ensures upper_bound { result < 4 }
{
    match mode {
        Mode::Outside => OUTSIDE,
        Mode::Inside(Kind::Standard) => IN_STANDARD,
        Mode::Inside(Kind::Extended) => IN_EXTENDED,
        Mode::Overlong => OVERLONG,
    }
}

pub(crate) fn pack_state(state: State) -> u64
    requires { state.held.len < 2 ^ 62 }
    ensures { result ≡ packed_state state }
{
    let held = state.held;
    let mode = held.mode;
    digit_of(mode) + MODES * (held.len as u64)
}

pub(crate) fn pack_counts(state: State) -> u64
    ensures { result ≡ packed_counts state }
{
    (state.start as u64) + POSITIONS * (state.count as u64)
}
