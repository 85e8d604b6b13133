// A workout in a frame's contents, and workouts written.
use crate::print::{Hex, Outcome, written};
use crate::words::ROOM;
use crate::{wire, words};
use frame::Origin;
use std::io::Write;
use std::{fmt, io};
use workout::{Goal, Hundredths, Metres, Seconds, Workout};

// A workout's goal, split and power.
#[derive(Clone, Copy)]
struct Told(Workout);

impl fmt::Display for Told {
    fn fmt<W: fmt::Write>(&self, f: &mut fmt::Formatter<W>) -> fmt::Result {
        let watts = self.0.watts;
        match self.0.goal {
            Goal::Distance { goal, split } => {
                write!(f, "distance:{},split:{},watts:{watts}", goal.0, split.0)
            }
            Goal::Time { goal, split } => {
                write!(f, "time:{},split:{},watts:{watts}", goal.0, split.0)
            }
        }
    }
}

pub(crate) fn print_workout(out: &mut impl Write, contents: &[u8]) -> io::Result<()> {
    let read = workout::read_workout(contents);
    write!(out, " workout={}", Outcome(read.map(Told)))?;
    let Ok(workout) = read else {
        return Ok(());
    };
    let mut room = [0u8; ROOM];
    let again = written(&mut room, |room| workout::write_workout(workout, room));
    write!(out, ",written:{again}")
}

// A workout's contents and, where they are written, the standard frame of a trace that has them.
pub(crate) fn write<F: Fn(u32, u32) -> Goal>(
    out: &mut impl Write,
    goal: F,
    arguments: &[u8],
) -> io::Result<()>
    requires { F.IsAlwaysCallable goal }
{
    let [amount, split, watts] = words::numbers::<3>(arguments);
    let workout = workout_of(goal(words::low(amount), words::low(split)), watts);
    let mut room = [0u8; ROOM];
    let contents = written(&mut room, |room| workout::write_workout(workout, room));
    write!(out, " contents={contents}")?;
    match contents {
        Outcome(Ok(Hex(contents))) => wire::print_standard(out, Origin::Trace, contents),
        Outcome(Err(_)) => Ok(()),
    }
}

// A workout in an extended frame to an address, which stands before its numbers.
pub(crate) fn write_frame<F: Fn(u32, u32) -> Goal>(
    out: &mut impl Write,
    goal: F,
    arguments: &[u8],
) -> io::Result<()>
    requires { F.IsAlwaysCallable goal }
{
    let [address, amount, split, watts] = words::numbers::<4>(arguments);
    let workout = workout_of(goal(words::low(amount), words::low(split)), watts);
    let mut room = [0u8; ROOM];
    let frame = written(&mut room, |room| {
        workout::write_workout_frame(words::low(address), workout, room)
    });
    write!(out, " written={frame}")
}

pub(crate) fn distance(goal: u32, split: u32) -> Goal {
    Goal::Distance {
        goal: Metres(goal),
        split: Metres(split),
    }
}

pub(crate) fn time(goal: u32, split: u32) -> Goal {
    Goal::Time {
        goal: Seconds(goal),
        split: Hundredths(split),
    }
}

// The numbers of an example fit their fields.
fn workout_of(goal: Goal, watts: u64) -> Workout {
    Workout {
        goal,
        watts: (watts % 0x10000) as u16,
    }
}
