// The listing of a trace: a line for each answer of the line reader, then the totals (document 01, "Listing"; document
// 02, No. 7).
// The state is a value. A call takes a chunk of the trace and a lent output, and writes whole lines into it.
#![tactic(auto)]

ghost use Rattle.std.specs.Prelude.{◌≡◌, ◌<◌, ◌≤◌, length, take};
ghost use Rattle.answer.specs.Answer.{result as answered};
ghost use Rattle.answer.specs.Draft.{draft_answer, draft_out, written_means};
ghost use Rattle.candidate.specs.Outcome.{told_means};
ghost use Rattle.line.specs.Feed.{chunk_of, ChunkStepIs};
ghost use Rattle.line.specs.Reader.{lent_reader};
ghost use Rattle.text.specs.Writing.{line_room};
ghost use Rattle.trace.specs.Private.{Advances, CountsFit, counting, countable, stray_count, passed_over};
ghost use Rattle.trace.specs.Machine.{is_open, new_listing, number_after, Lists, last_text, last_room};

use answer::Refusal;
use candidate::{Mode, Told};
use frame::{Origin, flags};
use line::{ChunkStep, LineReader, State};

// The room that the line of the finish and the totals fit in.
const LAST_ROOM: usize = text::LINE_ROOM + text::TOTALS_ROOM;

// How many frames, refusals and stray bytes there were. The counts wrap at 2^64.
#[derive(Clone, Copy, Default)]
pub struct Tally {
    pub frames: u64,
    pub refusals: u64,
    pub strays: u64,
}

// The line reader, and what was counted.
#[derive(Clone, Copy)]
pub struct Listing {
    pub reader: LineReader,
    pub tally: Tally,
}

// How many bytes of a chunk were taken, how many were written, and the state afterwards.
#[derive(Clone, Copy)]
pub struct Listed {
    pub taken: usize,
    pub wrote: usize,
    pub next: Listing,
}

// How many bytes were taken, and how many bytes the line has that they gave.
#[derive(Clone, Copy)]
struct Advanced {
    taken: usize,
    wrote: usize,
}

// What a chunk gives, and how many of the bytes taken are stray.
#[derive(Clone, Copy)]
struct Fed {
    step: ChunkStep,
    strays: u64,
}

pub fn new() -> Listing
    ensures { result ≡ new_listing }
{
    Listing {
        reader: LineReader::new(Origin::Trace),
        tally: Tally::default(),
    }
}

// Takes bytes of a chunk as long as there is room for the line of any answer. The state is copied once for a chunk, and
// lent for each answer.
pub fn list(s: Listing, chunk: &[u8], out: &mut [u8]) -> Listed
    ensures { Lists s chunk.now out.old out.new result }
{
    let mut next = s;
    let mut taken: usize = 0;
    let mut wrote: usize = 0;
    // Stays a `while`: a turn takes as many bytes as there are up to an answer.
    while taken < chunk.len() && text::LINE_ROOM <= out.len() - wrote {
        let step = next.advance(&chunk[taken..], &mut out[wrote..]);
        taken += step.taken;
        wrote += step.wrote;
    }
    Listed { taken, wrote, next }
}

// Ends the trace: writes the line of a candidate that is open, and the totals. Refusal 1. The text is made in an array
// first, because its length is known only then.
pub fn finish(s: Listing, out: &mut [u8]) -> Result<usize, Refusal>
    ensures result_value { written_means result ≡ draft_answer (answered (last_text s)) (length out.old) }
    ensures out_after { out.new ≡ draft_out (answered (last_text s)) out.old }
    ensures length_bound { length (last_text s) ≤ last_room }
{
    // Stays an array: the library has no heap.
    let mut last = [0u8; LAST_ROOM];
    let len = put_last(s, &mut last);
    text::write_bytes(&last[..len], out)
}

fn put_last(s: Listing, out: &mut [u8]) -> usize
    requires { last_room ≤ length out.old }
    ensures put { take result out.new ≡ last_text s }
    ensures value { result ≡ length (last_text s) }
    ensures upper_bound { result ≤ last_room }
{
    let bytes = s.reader.bytes;
    let step = line::finish_in(s.reader.state);
    let n = s.tally.next_number();
    let at = text::write_answer(step.told, step.position, &bytes, n, out).unwrap();
    let all = s.tally.with(step.told, 0);
    at + text::write_totals(all.frames, all.refusals, all.strays, &mut out[at..]).unwrap()
}

impl Listing {
    // Takes bytes up to the first that is answered, at least one and at most 65,536, and writes the line of an answer
    // first into an output that has room for any. A byte that a full line reader refuses is passed over.
    fn advance(&mut self, rest: &[u8], out: &mut [u8]) -> Advanced
        requires rest_nonzero { 0 < length rest.now }
        requires line_room_in_bounds { line_room ≤ length out.old }
        ensures { Advances self.old self.new rest.now out.old out.new result }
    {
        let n = self.tally.next_number();
        let fed = feed(&mut self.reader.bytes, self.reader.state, rest);
        let step = fed.step;
        self.reader.state = step.state;
        self.tally = self.tally.with(step.told, fed.strays);
        let wrote = text::write_answer(
            step.told,
            step.position,
            &self.reader.bytes,
            n,
            out,
        ).unwrap();
        Advanced {
            taken: step.taken.max(1),
            wrote,
        }
    }
}

impl Tally {
    // The number of the next answer.
    fn next_number(self) -> u64
        ensures value { result ≡ number_after self.frames self.refusals }
        ensures counts_fit { CountsFit self }
    {
        self.frames.wrapping_add(self.refusals).wrapping_add(1)
    }

    // With an answer more, and so many stray bytes.
    fn with(self, told: Told, strays: u64) -> Tally
        ensures { result ≡ counting self (told_means told) strays }
    {
        let frames = u64::from(matches!(told, Some(Ok(_))));
        let refusals = u64::from(matches!(told, Some(Err(_))));
        Tally {
            frames: self.frames.wrapping_add(frames),
            refusals: self.refusals.wrapping_add(refusals),
            strays: self.strays.wrapping_add(strays),
        }
    }
}

// Feeds a chunk, as far as the line reader takes one; a full reader refuses its first byte. The stray bytes are counted
// first, and passed over where they would change nothing but the reader's count, so that they are looked at once.
fn feed(bytes: &mut [u8; 118], before: State, rest: &[u8]) -> Fed
    ensures step_is { ChunkStepIs bytes.new result.step
        (chunk_of (lent_reader bytes.old before) rest.now) }
    ensures strays_value { result.strays
        ≡ stray_count (is_open before.held.mode) (countable before.count rest.now) }
{
    if before.count == line::LIMIT {
        let step = line::feed_in(bytes, before, rest);
        return Fed { step, strays: 0 };
    }
    let most = rest.len().min(line::CHUNK_LIMIT);
    let chunk = &rest[..most.min((line::LIMIT - before.count) as usize)];
    let strays = stray_count(before.held.mode, chunk);
    let passed = passed_over(before.held.len, strays);
    let after = State {
        count: before.count + passed as u32,
        ..before
    };
    let step = line::feed_in(bytes, after, &chunk[passed..]);
    Fed {
        step: ChunkStep {
            taken: passed + step.taken,
            ..step
        },
        strays: strays as u64,
    }
}

// Whether a candidate is open.
fn is_open(mode: Mode) -> bool
    ensures { result ≡ is_open mode }
{
    !matches!(mode, Mode::Outside)
}

// The stray bytes that come first: where no candidate is open, those before the first start flag.
fn stray_count(mode: Mode, rest: &[u8]) -> usize
    ensures { result ≡ stray_count (is_open mode) rest.now }
{
    if is_open(mode) {
        0
    } else {
        lists::count_before(rest, flags::EXTENDED_START, flags::STANDARD_START)
    }
}

// How many of them need not be fed: all, where the reader's length is 0, because none of them changes that length.
fn passed_over(len: usize, strays: usize) -> usize
    ensures { result ≡ passed_over len strays }
{
    if len == 0 { strays } else { 0 }
}
