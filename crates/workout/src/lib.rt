// Programmed workouts: read from a frame's contents, and written as contents or as a whole frame.
// Document 01, "Workout card"; the frame: document 02, No. 9.
#![tactic(auto)]

mod layout;
mod limits;

ghost use Rattle.std.specs.Prelude.{◌≡◌, ◌<◌, ◌^◌, length};
ghost use Rattle.answer.specs.Draft.{draft_answer, draft_out, written_means};
ghost use Rattle.numbers.specs.Number.{Bytes};
ghost use Rattle.workout.specs.Limits.{pm3_limits};
ghost use Rattle.workout.specs.Workout.{programmed, workout_bytes};
ghost use Rattle.workout.specs.Answers.{workout_means, workout_answer, workout_draft, workout_frame_draft};
ghost use Rattle.workout.specs.Private.{limits_of, goal_said, workout_said};

use answer::Refusal;
use frame::address;
use layout::GoalKind;
use limits::{Limits, PM3};

// The host's address, which the frame of a workout names as its sender.
const HOST: u8 = 0x00;

#[derive(Clone, Copy)]
pub struct Metres(pub u32);

#[derive(Clone, Copy)]
pub struct Seconds(pub u32);

// Hundredths of a second.
#[derive(Clone, Copy)]
pub struct Hundredths(pub u32);

// What is to be rowed: a distance with splits in metres, or a time with splits in hundredths of a second.
#[derive(Clone, Copy)]
pub enum Goal {
    Distance { goal: Metres, split: Metres },
    Time { goal: Seconds, split: Hundredths },
}

// A goal, and the power to row it at.
#[derive(Clone, Copy)]
pub struct Workout {
    pub goal: Goal,
    pub watts: u16,
}

// Reads the contents of a frame that are to be a workout. Refusals 13 and 12.
pub fn read_workout(contents: &[u8]) -> Result<Workout, Refusal>
    ensures result_value { workout_means result ≡ workout_answer pm3_limits contents.now }
    ensures bytes { Bytes contents.now }
{
    PM3.read(contents)
}

// Writes the contents of a workout first in the output. Refusals 12 and 1.
pub fn write_workout(workout: Workout, out: &mut [u8]) -> Result<usize, Refusal>
    ensures result_value { written_means result ≡ draft_answer (workout_draft pm3_limits (programmed workout))
        (length out.old) }
    ensures out_after { out.new ≡ draft_out (workout_draft pm3_limits (programmed workout)) out.old }
    ensures watts_bound { workout.watts < 2 ^ 16 }
{
    PM3.write(workout, out)
}

// Writes a workout in an extended frame from 00 to an address. Refusals 9, 12 and 1.
pub fn write_workout_frame(address: u32, workout: Workout, out: &mut [u8]) -> Result<usize, Refusal>
    ensures result_value { written_means result ≡ draft_answer (workout_frame_draft pm3_limits address (programmed workout))
        (length out.old) }
    ensures out_after { out.new ≡ draft_out (workout_frame_draft pm3_limits address (programmed workout))
        out.old }
    ensures watts_bound { workout.watts < 2 ^ 16 }
{
    PM3.write_frame(address, workout, out)
}

impl Limits {
    // The form of all bytes is looked at before any limit.
    fn read(self, contents: &[u8]) -> Result<Workout, Refusal>
        ensures { workout_means result ≡ workout_answer (limits_of self) contents.now }
    {
        let workout = said_in(contents)?;
        self.admit(workout)?;
        Ok(workout)
    }

    // Nothing is written where the workout is out of the limits or does not fit.
    fn write(self, workout: Workout, out: &mut [u8]) -> Result<usize, Refusal>
        ensures result_value { written_means result ≡ draft_answer (workout_draft (limits_of self) (programmed workout))
            (length out.old) }
        ensures out_after { out.new ≡ draft_out (workout_draft (limits_of self) (programmed workout))
            out.old }
    {
        self.admit(workout)?;
        if out.len() < layout::LEN {
            return Err(Refusal::NoRoom);
        }
        out[..layout::LEN].copy_from_slice(&workout.contents());
        Ok(layout::LEN)
    }

    // The address is looked at before any limit. The frame of a workout is within the longest that is allowed, so that the
    // frame's writer refuses it only where it has no room.
    fn write_frame(self, address: u32, workout: Workout, out: &mut [u8]) -> Result<usize, Refusal>
        ensures result_value { written_means result ≡ draft_answer (workout_frame_draft (limits_of self) address (programmed workout))
            (length out.old) }
        ensures out_after { out.new ≡ draft_out (workout_frame_draft (limits_of self) address (programmed workout))
            out.old }
    {
        if !address::in_range(address) {
            return Err(Refusal::BadAddress);
        }
        self.admit(workout)?;
        writer::write_extended(address as u8, HOST, &workout.contents(), out)
    }
}

// The workout that contents say, within the limits or not. Refusals 13 and, for a time that no clock shows, 12.
fn said_in(contents: &[u8]) -> Result<Workout, Refusal>
    ensures { workout_means result ≡ workout_said contents.now }
{
    if contents.len() != layout::LEN {
        return Err(Refusal::NotWorkout);
    }
    let kind = GoalKind::set_by(contents[0]);
    let goal = [contents[2], contents[3], contents[4]];
    let split = numbers::number_at(contents, layout::SPLIT_AT, 4) as u32;
    let watts = numbers::number_at(contents, layout::POWER_AT, 2) as u16;
    let expected = layout::lay_out(kind, goal, split, watts);
    if contents != expected.as_slice() {
        return Err(Refusal::NotWorkout);
    }
    let goal = goal_in(kind, goal, split)?;
    Ok(Workout { goal, watts })
}

// The goal that three bytes say, with its split. Refusals 13 for an unknown unit, and 12 for a time that no clock shows.
fn goal_in(kind: GoalKind, bytes: [u8; 3], split: u32) -> Result<Goal, Refusal>
    ensures { result ≡ goal_said kind bytes split }
{
    match kind {
        GoalKind::Distance => {
            let goal = layout::metres_in(bytes)?;
            Ok(Goal::Distance {
                goal,
                split: Metres(split),
            })
        }
        GoalKind::Time => {
            let goal = layout::seconds_in(bytes)?;
            Ok(Goal::Time {
                goal,
                split: Hundredths(split),
            })
        }
    }
}

impl Workout {
    fn contents(self) -> [u8; layout::LEN]
        ensures { result ≡ workout_bytes (programmed self) }
    {
        match self.goal {
            Goal::Distance { goal, split } => {
                let bytes = layout::distance_bytes(goal);
                layout::lay_out(GoalKind::Distance, bytes, split.0, self.watts)
            }
            Goal::Time { goal, split } => {
                let bytes = layout::time_bytes(goal);
                layout::lay_out(GoalKind::Time, bytes, split.0, self.watts)
            }
        }
    }
}
