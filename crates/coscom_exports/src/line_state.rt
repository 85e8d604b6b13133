// The number that holds the state of a line reader for packets: the mode is the lowest two bits, and the length stands
// above them.
ghost use Rattle.std.specs.Prelude.{◌≡◌, ◌%◌, ◌<◌, ◌^◌};
ghost use Rattle.coscom_exports.specs.LineState.{digit_of, mode_of, packed_state, state_in};

use coscom_line::{Mode, State};

// Stays numbers for the modes: C keeps them between calls (`packed_state`).
const OUTSIDE: u64 = 0;

const INSIDE: u64 = 1;

const OVERLONG: u64 = 2;

// How many values two bits have.
const DIGITS: u64 = 4;

// Stays a match, as `digit_of` below: the mode is another crate's type, so that no From can stand here.
fn mode_in(number: u64) -> Mode
    ensures { result ≡ mode_of (number % 4) }
{
    match number % DIGITS {
        OUTSIDE => Mode::Outside,
        INSIDE => Mode::Inside(()),
        _ => Mode::Overlong,
    }
}

pub(crate) fn state_in(number: u64) -> State
    ensures { result ≡ state_in number }
{
    State {
        len: (number / DIGITS) as usize,
        mode: mode_in(number),
    }
}

fn digit_of(mode: Mode) -> u64
    ensures value { result ≡ digit_of mode }
    ensures upper_bound { result < 4 }
{
    match mode {
        Mode::Outside => OUTSIDE,
        Mode::Inside(()) => INSIDE,
        Mode::Overlong => OVERLONG,
    }
}

pub(crate) fn pack_state(state: State) -> u64
    requires { state.len < 2 ^ 62 }
    ensures { result ≡ packed_state state }
{
    digit_of(state.mode) + DIGITS * (state.len as u64)
}
