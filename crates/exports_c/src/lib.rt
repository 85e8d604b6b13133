// The portal's functions for C, with the names that they have there: each calls the function of that name of `exports`
// and states its clauses again. Stay functions that are alike: C has a name for each.
#![tactic(auto)]

ghost use Rattle.std.specs.Prelude.{◌≡◌, List, ℕ, ◌<◌, ◌^◌, length};
ghost use Rattle.answer.specs.Answer.{through};
ghost use Rattle.answer.specs.Draft.{draft_answer, draft_out};
ghost use Rattle.frame.specs.Frame.{standard, extended};
ghost use Rattle.frame.specs.Verdict.{verdict};
ghost use Rattle.frame.specs.Origin.{admit};
ghost use Rattle.writer.specs.Answers.{frame_draft, sent_draft};
ghost use Rattle.frame.specs.Answers.{read_answer, read_out};
ghost use Rattle.frame.specs.declared.Origin.TheVariants.{Live};
ghost use Rattle.workout.specs.Limits.{pm3_limits};
ghost use Rattle.workout.specs.Workout.{Programmed};
ghost use Rattle.workout.specs.Answers.{workout_draft, workout_frame_draft};
ghost use Rattle.lease.specs.Lease.{hold, release, stop, lent_answer, lent_after};
ghost use Rattle.lease.specs.Answers.{written_length, out_after};
ghost use Rattle.lease.specs.Promises.{Real};
ghost use Rattle.exports.specs.Packed.{Tells};
ghost use Rattle.exports.specs.Answers.{write_fields, read_fields, lease_fields};
ghost use Rattle.exports.specs.LineAnswers.{fed_to, finished, FedAs, FinishedAs};

use frame::Origin;

// Refuses a standard frame with 17, so that a caller that writes one is told why.
#[unsafe(no_mangle)]
pub extern "C" fn csafe_write_standard(contents: &[u8], out: &mut [u8]) -> u64
    ensures tells { Tells result
        (write_fields (draft_answer (sent_draft Live (standard contents.now)) (length out.old))) }
    ensures out_after { out.new ≡ draft_out (sent_draft Live (standard contents.now))
        out.old }
{
    exports::csafe_write_standard(contents, out)
}

// Writes an extended frame. Refusals 2 and 1.
#[unsafe(no_mangle)]
pub extern "C" fn csafe_write_extended(to: u8, from: u8, contents: &[u8], out: &mut [u8]) -> u64
    ensures tells { Tells result
        (write_fields (draft_answer (frame_draft (extended to from contents.now))
        (length out.old))) }
    ensures out_after { out.new ≡ draft_out (frame_draft (extended to from contents.now))
        out.old }
{
    exports::csafe_write_extended(to, from, contents, out)
}

// Refuses a standard frame with 17, as `csafe_write_standard` does.
#[unsafe(no_mangle)]
pub extern "C" fn csafe_standard_length(contents: &[u8]) -> u64
    ensures { Tells result (write_fields (through length (sent_draft Live (standard contents.now)))) }
{
    exports::csafe_standard_length(contents)
}

// How many bytes an extended frame takes on the wire, which is the room that writing it needs. Refusal 2.
#[unsafe(no_mangle)]
pub extern "C" fn csafe_extended_length(to: u8, from: u8, contents: &[u8]) -> u64
    ensures { Tells result (write_fields (through length (frame_draft (extended to from contents.now)))) }
{
    exports::csafe_extended_length(to, from, contents)
}

// Reads one frame. Refusals 6, 2, 3, 4, 5, 17 and 1.
#[unsafe(no_mangle)]
pub extern "C" fn csafe_read(wire: &[u8], out: &mut [u8]) -> u64
    ensures tells { Tells result
        (read_fields (read_answer (admit Live (verdict wire.now)) (length out.old))) }
    ensures out_after { out.new ≡ read_out (admit Live (verdict wire.now)) out.old }
{
    exports::csafe_read(wire, out)
}

// Feeds a chunk to a line reader up to the first byte that is answered, counts the bytes taken, and gives the position of
// the answer's start flag. With no answer all are taken, or as many as the reader can still count. A chunk of more than
// 65,536 bytes is cut to its first 65,536. The reader is its array and the two numbers that hold its state, both 0 for a
// new one. A standard frame is told as refusal 17, and a first byte that can't be taken as 16, at position 0.
#[unsafe(no_mangle)]
pub extern "C" fn csafe_feed(
    bytes: &mut [u8; 118],
    state: &mut u64,
    counts: &mut u64,
    input: &[u8],
    taken: &mut u64,
    position: &mut u32,
) -> u64
    ensures { FedAs result bytes.new state.new counts.new taken.new
        position.new
        (fed_to Live bytes.old state.old counts.old input.now) }
{
    exports::csafe_feed(bytes, state, counts, input, taken, position)
}

// Ends the input of the line reader whose state the two numbers hold, of either origin; its array stays as it is. Refusal
// 6, with the position of its start flag, where a candidate is open.
#[unsafe(no_mangle)]
pub extern "C" fn csafe_finish(state: &mut u64, counts: &mut u64, position: &mut u32) -> u64
    ensures { (o : Origin) (bytes : List ℕ)
        → FinishedAs result state.new counts.new position.new
        (finished o bytes state.old counts.old) }
{
    exports::csafe_finish(state, counts, position)
}

// Writes the contents of a workout over a distance. Refusals 12 and 1.
#[unsafe(no_mangle)]
pub extern "C" fn csafe_write_distance_workout(
    metres: u32,
    split: u32,
    watts: u16,
    out: &mut [u8],
) -> u64
    ensures tells { Tells result
        (write_fields (draft_answer (workout_draft pm3_limits (Programmed.distance metres split watts))
        (length out.old))) }
    ensures out_after { out.new ≡ draft_out (workout_draft pm3_limits (Programmed.distance metres split watts))
        out.old }
    ensures watts_bound { watts < 2 ^ 16 }
{
    exports::csafe_write_distance_workout(metres, split, watts, out)
}

// Writes the contents of a workout over a time. Refusals 12 and 1.
#[unsafe(no_mangle)]
pub extern "C" fn csafe_write_time_workout(
    seconds: u32,
    split: u32,
    watts: u16,
    out: &mut [u8],
) -> u64
    ensures tells { Tells result
        (write_fields (draft_answer (workout_draft pm3_limits (Programmed.time seconds split watts)) (length out.old))) }
    ensures out_after { out.new ≡ draft_out (workout_draft pm3_limits (Programmed.time seconds split watts))
        out.old }
    ensures watts_bound { watts < 2 ^ 16 }
{
    exports::csafe_write_time_workout(seconds, split, watts, out)
}

// Writes a workout over a distance in an extended frame from 00 to an address. Refusals 9, 12 and 1.
#[unsafe(no_mangle)]
pub extern "C" fn csafe_write_distance_workout_frame(
    address: u32,
    metres: u32,
    split: u32,
    watts: u16,
    out: &mut [u8],
) -> u64
    ensures tells { Tells result
        (write_fields (draft_answer (workout_frame_draft pm3_limits address (Programmed.distance metres split watts))
        (length out.old))) }
    ensures out_after { out.new
        ≡ draft_out (workout_frame_draft pm3_limits address (Programmed.distance metres split watts)) out.old }
    ensures watts_bound { watts < 2 ^ 16 }
{
    exports::csafe_write_distance_workout_frame(address, metres, split, watts, out)
}

// Writes a workout over a time in an extended frame from 00 to an address. Refusals 9, 12 and 1.
#[unsafe(no_mangle)]
pub extern "C" fn csafe_write_time_workout_frame(
    address: u32,
    seconds: u32,
    split: u32,
    watts: u16,
    out: &mut [u8],
) -> u64
    ensures tells { Tells result
        (write_fields (draft_answer (workout_frame_draft pm3_limits address (Programmed.time seconds split watts))
        (length out.old))) }
    ensures out_after { out.new
        ≡ draft_out (workout_frame_draft pm3_limits address (Programmed.time seconds split watts)) out.old }
    ensures watts_bound { watts < 2 ^ 16 }
{
    exports::csafe_write_time_workout_frame(address, seconds, split, watts, out)
}

// Takes a free address. Refusals 18, 9, 14 and 10.
#[unsafe(no_mangle)]
pub extern "C" fn csafe_hold(table: &mut [u8], address: u32, token: u64) -> u64
    ensures tells { Tells result (lease_fields (lent_answer table.old (hold address token))) }
    ensures table_after { table.new ≡ lent_after table.old (hold address token) }
    ensures real { Real table.old token }
{
    exports::csafe_hold(table, address, token)
}

// Frees an address for its holder. Refusals 18, 9 and 11.
#[unsafe(no_mangle)]
pub extern "C" fn csafe_release(table: &mut [u8], address: u32, token: u64) -> u64
    ensures tells { Tells result (lease_fields (lent_answer table.old (release address token))) }
    ensures table_after { table.new ≡ lent_after table.old (release address token) }
    ensures real { Real table.old token }
{
    exports::csafe_release(table, address, token)
}

// Writes the stop frame for the holder. Refusals 18, 9, 11 and 1.
#[unsafe(no_mangle)]
pub extern "C" fn csafe_stop(table: &[u8], address: u32, token: u64, out: &mut [u8]) -> u64
    ensures tells { Tells result (write_fields
        (written_length (lent_answer table.now (stop address token (length out.old))))) }
    ensures out_after { out.new
        ≡ out_after (lent_answer table.now (stop address token (length out.old)))
        out.old }
    ensures real { Real table.now token }
{
    exports::csafe_stop(table, address, token, out)
}
