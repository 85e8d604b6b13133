// The functions for stored traces, called with numbers and byte slices: in a trace standard frames are read as they
// stand. Their answers are numbers of the same layout as those of `exports`. They are a static library of their own, so
// that the portal's has no function that takes a standard frame. Document 02, No. 9.
#![tactic(auto)]

ghost use Rattle.std.specs.Prelude.{◌≡◌, length};
ghost use Rattle.answer.specs.Answer.{through};
ghost use Rattle.answer.specs.Draft.{draft_answer, draft_out};
ghost use Rattle.frame.specs.Frame.{standard};
ghost use Rattle.frame.specs.Verdict.{verdict};
ghost use Rattle.frame.specs.Origin.{admit};
ghost use Rattle.writer.specs.Answers.{sent_draft};
ghost use Rattle.frame.specs.Answers.{read_answer, read_out};
ghost use Rattle.frame.specs.declared.Origin.TheVariants.{Trace};
ghost use Rattle.exports.specs.Packed.{Tells};
ghost use Rattle.exports.specs.Answers.{write_fields, read_fields};
ghost use Rattle.exports.specs.LineAnswers.{fed_to, FedAs};

use frame::Origin;

// Writes a standard frame that stands in a trace. Refusals 2 and 1.
#[unsafe(no_mangle)]
pub extern "C" fn csafe_trace_write_standard(contents: &[u8], out: &mut [u8]) -> u64
    ensures tells { Tells result
        (write_fields (draft_answer (sent_draft Trace (standard contents.now)) (length out.old))) }
    ensures out_after { out.new ≡ draft_out (sent_draft Trace (standard contents.now))
        out.old }
{
    exports::write_standard(Origin::Trace, contents, out)
}

// How many bytes a standard frame takes that stands in a trace. Refusal 2.
#[unsafe(no_mangle)]
pub extern "C" fn csafe_trace_standard_length(contents: &[u8]) -> u64
    ensures { Tells result (write_fields (through length (sent_draft Trace (standard contents.now)))) }
{
    exports::standard_length(Origin::Trace, contents)
}

// Reads one frame of a trace. Refusals 6, 2, 3, 4, 5 and 1.
#[unsafe(no_mangle)]
pub extern "C" fn csafe_trace_read(wire: &[u8], out: &mut [u8]) -> u64
    ensures tells { Tells result
        (read_fields (read_answer (admit Trace (verdict wire.now)) (length out.old))) }
    ensures out_after { out.new ≡ read_out (admit Trace (verdict wire.now)) out.old }
{
    exports::read(Origin::Trace, wire, out)
}

// Feeds a chunk of a trace to a line reader, as `csafe_feed` does one of the live line. `csafe_finish` ends its input.
#[unsafe(no_mangle)]
pub extern "C" fn csafe_trace_feed(
    bytes: &mut [u8; 118],
    state: &mut u64,
    counts: &mut u64,
    input: &[u8],
    taken: &mut u64,
    position: &mut u32,
) -> u64
    ensures { FedAs result bytes.new state.new counts.new taken.new
        position.new
        (fed_to Trace bytes.old state.old counts.old input.now) }
{
    exports::feed(Origin::Trace, bytes, state, counts, input, taken, position)
}
