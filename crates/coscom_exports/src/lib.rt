// The portal's functions for treadmills: packets and their line reader, called with numbers and byte slices. Their answers
// are numbers of the same layout as those of `exports`. They are a static library of their own, which a portal without
// treadmills does without. Document 02, No. 3.
#![tactic(auto)]

mod answers;
mod line_state;

ghost use Rattle.std.specs.Prelude.{◌≡◌, List, ℕ, length};
ghost use Rattle.answer.specs.Draft.{draft_answer, draft_out};
ghost use Rattle.coscom.specs.Packet.{packet};
ghost use Rattle.coscom.specs.Verdict.{verdict};
ghost use Rattle.coscom.specs.Answers.{packet_draft, read_answer, read_out};
ghost use Rattle.exports.specs.Packed.{Tells};
ghost use Rattle.exports.specs.Answers.{write_fields};
ghost use Rattle.coscom_exports.specs.Answers.{packet_fields};
ghost use Rattle.coscom_exports.specs.LineAnswers.{fed_to, finished, FedAs, FinishedAs};

use coscom::Header;

// Writes a packet. Refusals 2, 22 and 1.
#[unsafe(no_mangle)]
pub extern "C" fn csafe_packet_write(
    letter: u8,
    tens: u8,
    ones: u8,
    unit: &[u8],
    out: &mut [u8],
) -> u64
    ensures tells { Tells result
        (write_fields (draft_answer (packet_draft (packet letter tens ones unit.now))
        (length out.old))) }
    ensures out_after { out.new ≡ draft_out (packet_draft (packet letter tens ones unit.now))
        out.old }
{
    let header = Header { letter, tens, ones };
    answers::of_written(coscom::write_packet(header, unit, out))
}

// Reads one packet. Refusals 6, 2, 4, 22, 5 and 1.
#[unsafe(no_mangle)]
pub extern "C" fn csafe_packet_read(wire: &[u8], out: &mut [u8]) -> u64
    ensures tells { Tells result (packet_fields (read_answer (verdict wire.now) (length out.old))) }
    ensures out_after { out.new ≡ read_out (verdict wire.now) out.old }
{
    answers::of_read(coscom::read_packet(wire, out))
}

// Feeds a chunk to a line reader up to the first byte that is answered, and counts the bytes taken. With no answer all
// are taken. A chunk of more than 65,536 bytes is cut to its first 65,536. The reader is its array and the number that
// holds its state, 0 for a new one. 01 refuses an open candidate with 6, and 17 has it judged as `csafe_packet_read`
// judges a slice, without 1.
#[unsafe(no_mangle)]
pub extern "C" fn csafe_packet_feed(
    bytes: &mut [u8; 254],
    state: &mut u64,
    input: &[u8],
    taken: &mut u64,
) -> u64
    ensures { FedAs result bytes.new state.new taken.new
        (fed_to bytes.old state.old input.now) }
{
    let fed = coscom_line::feed_in(bytes, line_state::state_in(*state), input);
    *state = line_state::pack_state(fed.state);
    *taken = fed.taken as u64;
    answers::of_told(fed.told)
}

// Ends the input of the line reader whose state the number holds; its array stays as it is. Refusal 6 where a candidate is
// open.
#[unsafe(no_mangle)]
pub extern "C" fn csafe_packet_finish(state: &mut u64) -> u64
    ensures { (bytes : List ℕ)
        → FinishedAs result state.new (finished bytes state.old) }
{
    let ended = coscom_line::finish_in(line_state::state_in(*state));
    *state = line_state::pack_state(ended.state);
    answers::of_told(ended.told)
}
