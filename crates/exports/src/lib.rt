// The portal's functions: frames, the line reader, workouts and leases, called with numbers and byte slices.
// Document 01, "What the box does"; document 02, No. 9. The exported functions are live; those for traces stand in
// another static library, `trace_exports`, over the functions that take an origin.
// Stay functions that are alike, with numbers that go together: C has a name and these parameters for each.
#![tactic(auto)]

mod line_state;
pub mod packed;

ghost use Rattle.std.specs.Prelude.{◌≡◌, List, ℕ, ◌<◌, ◌^◌, length};
ghost use Rattle.answer.specs.Answer.{through};
ghost use Rattle.answer.specs.Draft.{draft_answer, draft_out};
ghost use Rattle.frame.specs.Frame.{standard, extended};
ghost use Rattle.frame.specs.Verdict.{verdict};
ghost use Rattle.frame.specs.Origin.{admit};
ghost use Rattle.writer.specs.Answers.{frame_draft, sent_draft};
ghost use Rattle.frame.specs.Answers.{read_answer, read_out};
ghost use Rattle.frame.specs.declared.Origin.TheVariants.{Live};
ghost use Rattle.workout.specs.Limits.{pm3_limits};
ghost use Rattle.workout.specs.Workout.{Programmed, programmed};
ghost use Rattle.workout.specs.Answers.{workout_draft, workout_frame_draft};
ghost use Rattle.lease.specs.Lease.{hold, release, stop, lent_answer, lent_after};
ghost use Rattle.lease.specs.Answers.{written_length, out_after};
ghost use Rattle.lease.specs.Promises.{Real};
ghost use Rattle.exports.specs.Packed.{Tells};
ghost use Rattle.exports.specs.Answers.{write_fields, read_fields, lease_fields};
ghost use Rattle.exports.specs.LineAnswers.{fed_to, finished, FedAs, FinishedAs};

use frame::Origin;
use workout::{Goal, Hundredths, Metres, Seconds, Workout};

// Refuses a standard frame with 17, so that a caller that writes one is told why.
pub fn csafe_write_standard(contents: &[u8], out: &mut [u8]) -> u64
    ensures tells { Tells result
        (write_fields (draft_answer (sent_draft Live (standard contents.now)) (length out.old))) }
    ensures out_after { out.new ≡ draft_out (sent_draft Live (standard contents.now))
        out.old }
{
    write_standard(Origin::Live, contents, out)
}

// Writes an extended frame. Refusals 2 and 1.
pub fn csafe_write_extended(to: u8, from: u8, contents: &[u8], out: &mut [u8]) -> u64
    ensures tells { Tells result
        (write_fields (draft_answer (frame_draft (extended to from contents.now))
        (length out.old))) }
    ensures out_after { out.new ≡ draft_out (frame_draft (extended to from contents.now))
        out.old }
{
    let written = writer::write_extended(to, from, contents, out);
    packed::of_written(written)
}

// Refuses a standard frame with 17, as `csafe_write_standard` does.
pub fn csafe_standard_length(contents: &[u8]) -> u64
    ensures { Tells result (write_fields (through length (sent_draft Live (standard contents.now)))) }
{
    standard_length(Origin::Live, contents)
}

// How many bytes an extended frame takes on the wire, which is the room that writing it needs. Refusal 2.
pub fn csafe_extended_length(to: u8, from: u8, contents: &[u8]) -> u64
    ensures { Tells result (write_fields (through length (frame_draft (extended to from contents.now)))) }
{
    let length = writer::extended_length(to, from, contents);
    packed::of_written(length)
}

// Reads one frame. Refusals 6, 2, 3, 4, 5, 17 and 1.
pub fn csafe_read(wire: &[u8], out: &mut [u8]) -> u64
    ensures tells { Tells result
        (read_fields (read_answer (admit Live (verdict wire.now)) (length out.old))) }
    ensures out_after { out.new ≡ read_out (admit Live (verdict wire.now)) out.old }
{
    read(Origin::Live, wire, out)
}

// Feeds a chunk to a line reader up to the first byte that is answered, counts the bytes taken, and gives the position of
// the answer's start flag. With no answer all are taken, or as many as the reader can still count. A chunk of more than
// 65,536 bytes is cut to its first 65,536. The reader is its array and the two numbers that hold its state, both 0 for a
// new one. A standard frame is told as refusal 17, and a first byte that can't be taken as 16, at position 0.
pub fn csafe_feed(
    bytes: &mut [u8; 118],
    state: &mut u64,
    counts: &mut u64,
    input: &[u8],
    taken: &mut u64,
    position: &mut u32,
) -> u64
    ensures { FedAs result bytes.new state.new counts.new taken.new
        position.new
        (fed_to Live bytes.old state.old counts.old input.now) }
{
    feed(Origin::Live, bytes, state, counts, input, taken, position)
}

// Ends the input of the line reader whose state the two numbers hold, of either origin; its array stays as it is. Refusal
// 6, with the position of its start flag, where a candidate is open.
pub fn csafe_finish(state: &mut u64, counts: &mut u64, position: &mut u32) -> u64
    ensures { (o : Origin) (bytes : List ℕ)
        → FinishedAs result state.new counts.new position.new
        (finished o bytes state.old counts.old) }
{
    let before = line_state::state_in(Origin::Live, *state, *counts);
    let ended = line::finish_in(before);
    let after = ended.state;
    *state = line_state::pack_state(after);
    *counts = line_state::pack_counts(after);
    *position = ended.position;
    let told = ended.told;
    packed::of_told(told)
}

// Writes the contents of a workout over a distance. Refusals 12 and 1.
pub fn csafe_write_distance_workout(metres: u32, split: u32, watts: u16, out: &mut [u8]) -> u64
    ensures tells { Tells result
        (write_fields (draft_answer (workout_draft pm3_limits (Programmed.distance metres split watts))
        (length out.old))) }
    ensures out_after { out.new ≡ draft_out (workout_draft pm3_limits (Programmed.distance metres split watts))
        out.old }
    ensures watts_bound { watts < 2 ^ 16 }
{
    let goal = Goal::Distance {
        goal: Metres(metres),
        split: Metres(split),
    };
    write_workout(Workout { goal, watts }, out)
}

// Writes the contents of a workout over a time. Refusals 12 and 1.
pub fn csafe_write_time_workout(seconds: u32, split: u32, watts: u16, out: &mut [u8]) -> u64
    ensures tells { Tells result
        (write_fields (draft_answer (workout_draft pm3_limits (Programmed.time seconds split watts)) (length out.old))) }
    ensures out_after { out.new ≡ draft_out (workout_draft pm3_limits (Programmed.time seconds split watts))
        out.old }
    ensures watts_bound { watts < 2 ^ 16 }
{
    let goal = Goal::Time {
        goal: Seconds(seconds),
        split: Hundredths(split),
    };
    write_workout(Workout { goal, watts }, out)
}

// Writes a workout over a distance in an extended frame from 00 to an address. Refusals 9, 12 and 1.
pub fn csafe_write_distance_workout_frame(
    address: u32,
    metres: u32,
    split: u32,
    watts: u16,
    out: &mut [u8],
) -> u64
    ensures tells { Tells result
        (write_fields (draft_answer (workout_frame_draft pm3_limits address (Programmed.distance metres split watts))
        (length out.old))) }
    ensures out_after { out.new
        ≡ draft_out (workout_frame_draft pm3_limits address (Programmed.distance metres split watts)) out.old }
    ensures watts_bound { watts < 2 ^ 16 }
{
    let goal = Goal::Distance {
        goal: Metres(metres),
        split: Metres(split),
    };
    write_workout_frame(address, Workout { goal, watts }, out)
}

// Writes a workout over a time in an extended frame from 00 to an address. Refusals 9, 12 and 1.
pub fn csafe_write_time_workout_frame(
    address: u32,
    seconds: u32,
    split: u32,
    watts: u16,
    out: &mut [u8],
) -> u64
    ensures tells { Tells result
        (write_fields (draft_answer (workout_frame_draft pm3_limits address (Programmed.time seconds split watts))
        (length out.old))) }
    ensures out_after { out.new
        ≡ draft_out (workout_frame_draft pm3_limits address (Programmed.time seconds split watts)) out.old }
    ensures watts_bound { watts < 2 ^ 16 }
{
    let goal = Goal::Time {
        goal: Seconds(seconds),
        split: Hundredths(split),
    };
    write_workout_frame(address, Workout { goal, watts }, out)
}

// Takes a free address. Refusals 18, 9, 14 and 10.
pub fn csafe_hold(table: &mut [u8], address: u32, token: u64) -> u64
    ensures tells { Tells result (lease_fields (lent_answer table.old (hold address token))) }
    ensures table_after { table.new ≡ lent_after table.old (hold address token) }
    ensures real { Real table.old token }
{
    let answer = lease::hold_lent(table, address, token);
    packed::of_lease(answer)
}

// Frees an address for its holder. Refusals 18, 9 and 11.
pub fn csafe_release(table: &mut [u8], address: u32, token: u64) -> u64
    ensures tells { Tells result (lease_fields (lent_answer table.old (release address token))) }
    ensures table_after { table.new ≡ lent_after table.old (release address token) }
    ensures real { Real table.old token }
{
    let answer = lease::release_lent(table, address, token);
    packed::of_lease(answer)
}

// Writes the stop frame for the holder. Refusals 18, 9, 11 and 1.
pub fn csafe_stop(table: &[u8], address: u32, token: u64, out: &mut [u8]) -> u64
    ensures tells { Tells result (write_fields
        (written_length (lent_answer table.now (stop address token (length out.old))))) }
    ensures out_after { out.new
        ≡ out_after (lent_answer table.now (stop address token (length out.old)))
        out.old }
    ensures real { Real table.now token }
{
    let written = lease::stop_lent(table, address, token, out);
    packed::of_written(written)
}

// ---- frames, at an origin

// Writes a standard frame. Refusals 17, on the live line alone, 2 and 1.
pub fn write_standard(origin: Origin, contents: &[u8], out: &mut [u8]) -> u64
    ensures tells { Tells result (write_fields
        (draft_answer (sent_draft origin (standard contents.now)) (length out.old))) }
    ensures out_after { out.new ≡ draft_out (sent_draft origin (standard contents.now))
        out.old }
{
    let written = writer::write_standard(origin, contents, out);
    packed::of_written(written)
}

// How many bytes a standard frame takes on the wire. Refusals 17, on the live line alone, and 2.
pub fn standard_length(origin: Origin, contents: &[u8]) -> u64
    ensures { Tells result (write_fields (through length (sent_draft origin (standard contents.now)))) }
{
    let length = writer::standard_length(origin, contents);
    packed::of_written(length)
}

// Reads one frame. Refusals 6, 2, 3, 4, 5, 17, on the live line alone, and 1.
pub fn read(origin: Origin, wire: &[u8], out: &mut [u8]) -> u64
    ensures tells { Tells result
        (read_fields (read_answer (admit origin (verdict wire.now)) (length out.old))) }
    ensures out_after { out.new ≡ read_out (admit origin (verdict wire.now)) out.old }
{
    let read = frame::read_frame(origin, wire, out);
    packed::of_read(read)
}

// Feeds a chunk to the line reader of this origin that the array and the two numbers are, as `csafe_feed` does to a live
// one.
pub fn feed(
    origin: Origin,
    bytes: &mut [u8; 118],
    state: &mut u64,
    counts: &mut u64,
    input: &[u8],
    taken: &mut u64,
    position: &mut u32,
) -> u64
    ensures { FedAs result bytes.new state.new counts.new taken.new
        position.new
        (fed_to origin bytes.old state.old counts.old input.now) }
{
    let before = line_state::state_in(origin, *state, *counts);
    let fed = line::feed_in(bytes, before, input);
    let after = fed.state;
    *state = line_state::pack_state(after);
    *counts = line_state::pack_counts(after);
    *taken = fed.taken as u64;
    *position = fed.position;
    let told = fed.told;
    packed::of_told(told)
}

// ---- workouts with either goal

fn write_workout(workout: Workout, out: &mut [u8]) -> u64
    ensures tells { Tells result (write_fields
        (draft_answer (workout_draft pm3_limits (programmed workout)) (length out.old))) }
    ensures out_after { out.new ≡ draft_out (workout_draft pm3_limits (programmed workout)) out.old }
    ensures watts_bound { workout.watts < 2 ^ 16 }
{
    let written = workout::write_workout(workout, out);
    packed::of_written(written)
}

fn write_workout_frame(address: u32, workout: Workout, out: &mut [u8]) -> u64
    ensures tells { Tells result (write_fields
        (draft_answer (workout_frame_draft pm3_limits address (programmed workout)) (length out.old))) }
    ensures out_after { out.new ≡ draft_out (workout_frame_draft pm3_limits address (programmed workout))
        out.old }
    ensures watts_bound { workout.watts < 2 ^ 16 }
{
    let written = workout::write_workout_frame(address, workout, out);
    packed::of_written(written)
}
