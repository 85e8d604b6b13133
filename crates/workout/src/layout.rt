// The 23 bytes of a workout, and the numbers in them.
ghost use Rattle.std.specs.Prelude.{◌≡◌};
ghost use Rattle.numbers.specs.Number.{bytes_of};
ghost use Rattle.workout.specs.Workout.{layout, command_of, identifier_of, distance_bytes, time_bytes};
ghost use Rattle.workout.specs.Form.{goal_kind_for};
ghost use Rattle.workout.specs.Private.{metres_said, seconds_said};

use crate::{Metres, Seconds};
use answer::Refusal;

pub(crate) const LEN: usize = 23;

// Where the numbers of several bytes stand.
pub(crate) const SPLIT_AT: usize = 10;

pub(crate) const POWER_AT: usize = 16;

// The commands after the one that sets the goal: the first is a wrapper round the second.
const SET_USER_CONFIG: u8 = 0x1A;

const SET_SPLIT_DURATION: u8 = 0x05;

const SET_POWER: u8 = 0x34;

const SET_PROGRAM: u8 = 0x24;

// The units of a distance.
const KILOMETRES: u8 = 0x21;

const METRES: u8 = 0x24;

// The unit of the power.
const WATTS: u8 = 0x58;

// The identifiers of the two splits.
const DISTANCE_SPLIT: u8 = 0x80;

const TIME_SPLIT: u8 = 0x00;

// Metres in a kilometre.
const KILOMETRE: u32 = 1000;

// Seconds in an hour and in a minute.
const HOUR: u32 = 3600;

const MINUTE: u32 = 60;

// The most minutes and the most seconds that a time goal has beside its hours.
const CLOCK_LIMIT: u8 = 59;

// The kind of a goal, with the command that sets it.
#[derive(Clone, Copy)]
pub(crate) enum GoalKind {
    Distance = 0x21,
    Time = 0x20,
}

impl GoalKind {
    // The kind of goal that a command byte sets.
    pub(crate) fn set_by(command: u8) -> GoalKind
        ensures { result ≡ goal_kind_for command }
    {
        if command == GoalKind::Time.command() {
            return GoalKind::Time;
        }
        GoalKind::Distance
    }

    fn command(self) -> u8
        ensures { result ≡ command_of self }
    {
        self as u8
    }

    // What stands before a split of this kind.
    fn identifier(self) -> u8
        ensures { result ≡ identifier_of self }
    {
        match self {
            GoalKind::Distance => DISTANCE_SPLIT,
            GoalKind::Time => TIME_SPLIT,
        }
    }
}

// All 23 bytes: four commands, each with the number of the bytes that follow it. The goal is a distance low, high and its
// unit, or hours, minutes and seconds.
pub(crate) fn lay_out(kind: GoalKind, goal: [u8; 3], split: u32, watts: u16) -> [u8; LEN]
    ensures { result ≡ layout kind goal (bytes_of 4 split) (bytes_of 2 watts) }
{
    let split = split.to_le_bytes();
    let power = watts.to_le_bytes();
    [
        kind.command(),
        0x03,
        goal[0],
        goal[1],
        goal[2],
        SET_USER_CONFIG,
        0x07,
        SET_SPLIT_DURATION,
        0x05,
        kind.identifier(),
        split[0],
        split[1],
        split[2],
        split[3],
        SET_POWER,
        0x03,
        power[0],
        power[1],
        WATTS,
        SET_PROGRAM,
        0x02,
        0x00,
        0x00,
    ]
}

// Kilometres where the distance is a whole number of them, else metres. What 16 bits do not hold is cut off.
pub(crate) fn distance_bytes(distance: Metres) -> [u8; 3]
    ensures { result ≡ distance_bytes distance.0 }
{
    let metres = distance.0;
    if metres % KILOMETRE == 0 {
        let km = (metres / KILOMETRE).to_le_bytes();
        return [km[0], km[1], KILOMETRES];
    }
    let bytes = metres.to_le_bytes();
    [bytes[0], bytes[1], METRES]
}

// The metres of a distance in one of the two units. Refusal 13.
pub(crate) fn metres_in(goal: [u8; 3]) -> Result<Metres, Refusal>
    ensures { result ≡ metres_said goal }
{
    let amount = u16::from_le_bytes([goal[0], goal[1]]) as u32;
    if goal[2] == KILOMETRES {
        return Ok(Metres(KILOMETRE * amount));
    }
    if goal[2] == METRES {
        return Ok(Metres(amount));
    }
    Err(Refusal::NotWorkout)
}

// Hours, of which only the lowest byte is kept, minutes and seconds.
pub(crate) fn time_bytes(time: Seconds) -> [u8; 3]
    ensures { result ≡ time_bytes time.0 }
{
    let seconds = time.0;
    let hours = (seconds / HOUR).to_le_bytes();
    [
        hours[0],
        (seconds / MINUTE % MINUTE) as u8,
        (seconds % MINUTE) as u8,
    ]
}

// The seconds of hours, minutes and seconds. Refusal 12.
pub(crate) fn seconds_in(clock: [u8; 3]) -> Result<Seconds, Refusal>
    ensures { result ≡ seconds_said clock }
{
    if CLOCK_LIMIT < clock[1] || CLOCK_LIMIT < clock[2] {
        return Err(Refusal::OutOfLimits);
    }
    Ok(Seconds(HOUR * u32::from(clock[0]) + MINUTE * u32::from(clock[1]) + u32::from(clock[2])))
}
