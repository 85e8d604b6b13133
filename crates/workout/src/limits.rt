// The limits on a workout, as numbers that differ from monitor to monitor: document 01, "Workout card".
ghost use Rattle.std.specs.Prelude.{◌≡◌, ◌*◌, ◌<◌};

use crate::{Goal, Workout};
use answer::Refusal;

// The limits on one kind of goal: on the goal in its own unit, and on the split in the split's unit. No split has length
// 0, so that a goal can be divided by each.
#[derive(Clone, Copy)]
pub(crate) struct GoalLimits {
    pub(crate) least: u32,
    pub(crate) most: u32,
    pub(crate) shortest: u32,
    pub(crate) longest: u32,
    ghost divisible: { 0 < shortest },
}

// The limits on a distance in metres, on a time in seconds with a split in hundredths, and on the number of splits.
#[derive(Clone, Copy)]
pub(crate) struct Limits {
    pub(crate) distance: GoalLimits,
    pub(crate) time: GoalLimits,
    pub(crate) splits: u32,
}

// Those of PM3 and PM4, which give a split no longest length but that of the goal.
pub(crate) const PM3: Limits = Limits {
    distance: GoalLimits {
        least: 100,
        most: 50_000,
        shortest: 100,
        longest: 50_000,
    },
    time: GoalLimits {
        least: 20,
        most: 35_999,
        shortest: 2_000,
        longest: 3_599_900,
    },
    splits: 30,
};

// Hundredths in a second: how many units of a time goal's split make one of the goal.
const HUNDREDTHS: u32 = 100;

impl Limits {
    ghost use Rattle.workout.specs.Private.{limits_of, Admits};
    ghost use Rattle.workout.specs.Workout.{programmed, within_limits};

    // Lets a workout through. Refusal 12.
    pub(crate) fn admit(self, workout: Workout) -> Result<(), Refusal>
        ensures { Admits (limits_of self) (programmed workout) result }
    {
        if self.admits(workout) {
            Ok(())
        } else {
            Err(Refusal::OutOfLimits)
        }
    }

    fn admits(self, workout: Workout) -> bool
        ensures { result ≡ within_limits (limits_of self) (programmed workout) }
    {
        match workout.goal {
            Goal::Distance { goal, split } => self.distance.hold(self.splits, 1, goal.0, split.0),
            Goal::Time { goal, split } => self.time.hold(self.splits, HUNDREDTHS, goal.0, split.0),
        }
    }
}

impl GoalLimits {
    ghost use Rattle.workout.specs.Limits.{within_goal};
    ghost use Rattle.workout.specs.Private.{goal_limits_of};

    // Whether a goal and its split are within the limits, where `scale` units of the split make one of the goal. The
    // splits, rounded up, are at most so many exactly where that many reach the goal.
    fn hold(self, splits: u32, scale: u32, goal: u32, split: u32) -> bool
        ensures { result ≡ within_goal (goal_limits_of self) splits scale goal split }
    {
        let length = product(scale, goal);
        (self.least..=self.most).contains(&goal)
            && (self.shortest..=self.longest).contains(&split)
            && u64::from(split) <= length
            && length <= product(splits, split)
    }
}

fn product(a: u32, b: u32) -> u64
    ensures { result ≡ a * b }
{
    u64::from(a) * u64::from(b)
}
