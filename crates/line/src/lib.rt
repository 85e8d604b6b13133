// The line reader: fed one byte at a time, or a chunk up to the first byte that is answered, it tells of each frame and
// each refusal at the call where it ends, with the position of its start flag. Document 01, "The line"; document 02,
// No. 4, No. 7 and No. 9.
#![tactic(auto)]

ghost use Rattle.std.specs.Prelude.{◌≡◌, List, ℕ, ◌+◌, ◌≤◌};
ghost use Rattle.candidate.specs.Outcome.{told_means};
ghost use Rattle.line.specs.Rowing.{most_bytes};
ghost use Rattle.line.specs.Reader.{lent_reader, new_reader, step_of, finish_of, LentStepIs, StepIs, ReaderTurn};
ghost use Rattle.line.specs.Feed.{chunk_of, ChunkStepIs, ChunkAnswerIs};
ghost use Rattle.line.specs.Private.{Whole, beside_told, told_at, place_at, Advances};

use answer::Refusal;
use candidate::{Held, HeldChunk, HeldStep, Mode, Told, chunk};
use frame::Origin;

// The most bytes of a chunk that a call takes.
pub const CHUNK_LIMIT: usize = 65536;

// How many bytes a reader takes from new or from a finish on.
pub const LIMIT: u32 = 4294967295;

// A line reader without its array: what is held of the open candidate, the position of the last start flag, and how many
// bytes were taken since the reader was new or finished. Every value is a state.
#[derive(Clone, Copy)]
pub struct State {
    pub held: Held,
    pub start: u32,
    pub count: u32,
}

impl State {
    // No byte was taken yet.
    fn uncounted(held: Held) -> State
        ensures { result ≡ record { held = held; start = 0; count = 0 } }
    {
        State {
            held,
            start: 0,
            count: 0,
        }
    }

    // A chunk given to a reader that is full: its first byte is refused. A chunk of no bytes has none.
    #[tactic(auto, using(crate::proofs::FeedLaws::chunk_full), unfolding(frame::specs::Answers::judge_answer))]
    fn refuse(self, chunk: &[u8]) -> ChunkStep
        requires { self.count ≡ most_bytes }
        ensures { (bytes : List ℕ)
            → ChunkStepIs bytes result (chunk_of (lent_reader bytes self) chunk.now) }
    {
        if chunk.is_empty() {
            return ChunkStep::untaken(None, self);
        }
        ChunkStep::untaken(Some(Err(Refusal::Full)), self)
    }

    // What bytes that were taken make of the position and the count. Where nothing is told there is no position to find.
    fn advanced(self, fed: HeldChunk) -> ChunkStep
        requires taken_bound { self.count + fed.taken ≤ most_bytes }
        requires began_le_taken { fed.began ≤ fed.taken }
        requires opened_le_taken { fed.opened ≤ fed.taken }
        ensures { Advances self.start self.count fed result }
    {
        match fed.told {
            None => self.moved(fed, 0),
            Some(_) => {
                let position = self.place_at(fed.began);
                self.moved(fed, position)
            }
        }
    }

    // The same beside a position that is told.
    fn moved(self, fed: HeldChunk, position: u32) -> ChunkStep
        requires taken_bound { self.count + fed.taken ≤ most_bytes }
        requires opened_le_taken { fed.opened ≤ fed.taken }
        ensures { result ≡ record {
          told = fed.told;
          position = position;
          state = record { held = fed.held; start = place_at self.start self.count fed.opened; count = self.count + fed.taken };
          taken = fed.taken;
        } }
    {
        ChunkStep {
            told: fed.told,
            position,
            state: State {
                held: fed.held,
                start: self.place_at(fed.opened),
                count: self.count + fed.taken as u32,
            },
            taken: fed.taken,
        }
    }

    // The position of the last start flag of a chunk, by its place in the chunk, or the one from before.
    fn place_at(self, place: usize) -> u32
        requires { self.count + place ≤ most_bytes }
        ensures { result ≡ place_at self.start self.count place }
    {
        if place == 0 {
            return self.start;
        }
        self.count + (place - 1) as u32
    }
}

// Every value of the struct is a reader.
#[derive(Clone, Copy)]
pub struct LineReader {
    pub bytes: [u8; 118],
    pub state: State,
}

// The answer to a call, and its position: that of the candidate's start flag, 0 where nothing is told and for 16. The
// array holds a frame's contents, and zeros after them; where no frame is told, zeros alone.
// Stays a position beside what is told, here and below: `StepIs`, `LentStepIs` and `ChunkIs` say it as a number in each case.
#[derive(Clone, Copy)]
pub struct StepAnswer {
    pub told: Told,
    pub position: u32,
    pub contents: [u8; 118],
}

// The answer to a call, and the reader afterwards.
#[derive(Clone, Copy)]
pub struct Stepped {
    pub answer: StepAnswer,
    pub next: LineReader,
}

// The answer to a call over a lent array, its position, and the state afterwards. The array holds the reader's bytes and,
// where a frame is told, its contents first.
#[derive(Clone, Copy)]
pub struct LentStep {
    pub told: Told,
    pub position: u32,
    pub state: State,
}

impl LentStep {
    // The answer by value, from this one over a lent array and the array.
    fn by_value(self, bytes: [u8; 118]) -> Stepped
        ensures { (t : ReaderTurn) → LentStepIs bytes self t → Whole t → StepIs result t }
    {
        let LentStep {
            told,
            position,
            state,
        } = self;
        Stepped {
            answer: StepAnswer {
                told,
                position,
                contents: beside(told, bytes),
            },
            next: LineReader { bytes, state },
        }
    }
}

// The answer to a chunk over a lent array, its position, the state afterwards, and how many bytes of the chunk were taken.
#[derive(Clone, Copy)]
pub struct ChunkStep {
    pub told: Told,
    pub position: u32,
    pub state: State,
    pub taken: usize,
}

impl ChunkStep {
    // No byte of a chunk is taken.
    fn untaken(told: Told, state: State) -> ChunkStep
        ensures { result ≡ record { told = told; position = 0; state = state; taken = 0 } }
    {
        ChunkStep {
            told,
            position: 0,
            state,
            taken: 0,
        }
    }
}

// The answer to a chunk, its position, and how many of its bytes were taken. A frame's contents are the first bytes of
// the array in the reader afterwards.
#[derive(Clone, Copy)]
pub struct ChunkAnswer {
    pub told: Told,
    pub position: u32,
    pub taken: usize,
}

// The answer to a chunk, and the reader afterwards.
#[derive(Clone, Copy)]
pub struct ChunkFed {
    pub answer: ChunkAnswer,
    pub next: LineReader,
}

impl LineReader {
    pub fn new(origin: Origin) -> LineReader
        ensures { result ≡ new_reader origin }
    {
        LineReader {
            bytes: [0u8; 118],
            state: State::uncounted(Held {
                len: 0,
                mode: Mode::Outside,
                origin,
            }),
        }
    }

    // Feeds a byte. It copies the reader, so a loop over many bytes goes through `feed_in`.
    pub fn step(self, b: u8) -> Stepped
        ensures { StepIs result (step_of self b) }
    {
        let mut bytes = self.bytes;
        let step = step_in(&mut bytes, self.state, b);
        step.by_value(bytes)
    }

    // Feeds a chunk up to the first byte that is answered; with no answer it takes all of it, or as much as it can still
    // count. A chunk of more than 65,536 bytes is cut to its first 65,536. Refusal 16 where the first byte can't be taken.
    pub fn feed(self, chunk: &[u8]) -> ChunkFed
        ensures { ChunkAnswerIs result.next result.answer (chunk_of self chunk.now) }
    {
        let mut bytes = self.bytes;
        let ChunkStep {
            told,
            position,
            state,
            taken,
        } = feed_in(&mut bytes, self.state, chunk);
        ChunkFed {
            answer: ChunkAnswer {
                told,
                position,
                taken,
            },
            next: LineReader { bytes, state },
        }
    }

    // Ends the input: a candidate that is open is truncated, and the reader is as a new one of its origin.
    pub fn finish(self) -> Stepped
        ensures { StepIs result (finish_of self) }
    {
        finish_in(self.state).by_value(self.bytes)
    }
}

// Feeds a byte to a reader whose array is lent and whose state goes in and comes back. Refusal 16 where it can't be taken.
#[tactic(auto, using(crate::proofs::StepLaws::step_full), unfolding(frame::specs::Answers::judge_answer))]
pub fn step_in(bytes: &mut [u8; 118], state: State, b: u8) -> LentStep
    ensures { LentStepIs bytes.new result (step_of (lent_reader bytes.old state) b) }
{
    let State { held, start, count } = state;
    if count == LIMIT {
        return LentStep {
            told: Some(Err(Refusal::Full)),
            position: 0,
            state,
        };
    }
    let HeldStep { told, held } = candidate::step_in(bytes, held, b);
    // What is held is made of its fields, because a copy of the struct copies its unused bytes too.
    let Held { len, mode, origin } = held;
    let opened = chunk::opened_by(b, start, count);
    let position = told_at(told, start);
    LentStep {
        told,
        position,
        state: State {
            held: Held { len, mode, origin },
            start: opened,
            count: count + 1,
        },
    }
}

// Ends the input of a reader whose array is lent and whose state goes in and comes back. The array stays as it is.
pub fn finish_in(state: State) -> LentStep
    ensures { (bytes : List ℕ) → LentStepIs bytes result (finish_of (lent_reader bytes state)) }
{
    let step = candidate::finish_in(state.held);
    let told = step.told;
    LentStep {
        told,
        position: told_at(told, state.start),
        state: State::uncounted(step.held),
    }
}

// Feeds a chunk to a reader whose array is lent and whose state goes in and comes back, as `LineReader::feed` does, and
// copies nothing but the bytes that it holds.
pub fn feed_in(bytes: &mut [u8; 118], state: State, chunk: &[u8]) -> ChunkStep
    ensures { ChunkStepIs bytes.new result
        (chunk_of (lent_reader bytes.old state) chunk.now) }
{
    let room = (LIMIT - state.count) as usize;
    if room == 0 {
        return state.refuse(chunk);
    }
    let part = chunk.len().min(CHUNK_LIMIT).min(room);
    let fed = chunk::feed_all(bytes, state.held, &chunk[..part]);
    state.advanced(fed)
}

// Feeds a chunk to a reader that is lent, as `LineReader::feed` does, and leaves the next reader in its place. The
// contents of a frame are read from the lent reader.
pub fn feed_lent(reader: &mut LineReader, chunk: &[u8]) -> ChunkAnswer
    ensures { ChunkAnswerIs reader.new result (chunk_of reader.old chunk.now) }
{
    let fed = reader.feed(chunk);
    *reader = fed.next;
    fed.answer
}

// The position that is told of an answer. Nothing has none.
fn told_at(told: Told, position: u32) -> u32
    ensures { result ≡ told_at (told_means told) position }
{
    if told.is_some() { position } else { 0 }
}

// The array that stands beside what is told: a frame's contents, which are the first bytes of the reader's array, and
// zeros after them.
fn beside(told: Told, bytes: [u8; 118]) -> [u8; 118]
    ensures { result ≡ beside_told (told_means told) bytes }
{
    let Some(Ok(outline)) = told else {
        return [0u8; 118];
    };
    let mut contents = bytes;
    lists::clear_from(&mut contents, outline.len);
    contents
}
