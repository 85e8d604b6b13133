// The line reader for treadmill packets: fed one byte at a time, or a chunk up to the first byte that is answered, it
// tells of each packet and each refusal at the call where it ends. Document 01, "The line"; document 02, No. 3 and
// No. 4.
#![tactic(auto)]

ghost use Rattle.std.specs.Prelude.{◌≡◌, List, ℕ, take};
ghost use Rattle.coscom_line.specs.Outcome.{told_means, padded};
ghost use Rattle.coscom_line.specs.Reader.{lent_reader, new_reader, step_of, finish_of, LentStepIs, StepIs, ReaderTurn};
ghost use Rattle.coscom_line.specs.Chunk.{chunk_of, ChunkStepIs, ChunkAnswerIs};
ghost use Rattle.coscom_line.specs.Private.{Whole, beside_told};

use answer::Refusal;
use coscom::Outline;
use framing::{LineProtocol, Role, calls, feeds};

// The most bytes of a chunk that a call takes.
pub const CHUNK_LIMIT: usize = 65536;

// What a call tells: nothing, a packet or a refusal. A packet's data unit is the first bytes of an array beside it.
pub type Told = Option<Result<Outline, Refusal>>;

// Outside of any candidate; in one, of which there is one kind; in one that is too long to be a packet, which is not held.
pub type Mode = framing::Mode<()>;

// A line reader without its array: how many bytes are held, and the mode. A length over 254 counts as 254, so every
// value is a state.
pub type State = framing::Held<()>;

// Every value of the struct is a reader.
#[derive(Clone, Copy)]
pub struct LineReader {
    pub bytes: [u8; 254],
    pub state: State,
}

// The answer to a call. The array holds a packet's data unit, and zeros after it; where no packet is told, zeros alone.
#[derive(Clone, Copy)]
pub struct StepAnswer {
    pub told: Told,
    pub unit: [u8; 254],
}

// The answer to a call, and the reader afterwards.
#[derive(Clone, Copy)]
pub struct Stepped {
    pub answer: StepAnswer,
    pub next: LineReader,
}

// The answer to a call over a lent array, and the state afterwards. The array holds the reader's bytes and, where a
// packet is told, its data unit first.
#[derive(Clone, Copy)]
pub struct LentStep {
    pub told: Told,
    pub state: State,
}

// The answer to a chunk over a lent array, the state afterwards, and how many bytes of the chunk were taken.
#[derive(Clone, Copy)]
pub struct ChunkStep {
    pub told: Told,
    pub state: State,
    pub taken: usize,
}

// The answer to a chunk, and how many of its bytes were taken. A packet's data unit is the first bytes of the array in
// the reader afterwards.
#[derive(Clone, Copy)]
pub struct ChunkAnswer {
    pub told: Told,
    pub taken: usize,
}

// The answer to a chunk, and the reader afterwards.
#[derive(Clone, Copy)]
pub struct ChunkFed {
    pub answer: ChunkAnswer,
    pub next: LineReader,
}

impl LineReader {
    pub fn new() -> LineReader
        ensures { result ≡ new_reader }
    {
        LineReader {
            bytes: [0u8; 254],
            state: State {
                len: 0,
                mode: Mode::Outside,
            },
        }
    }

    // Feeds a byte. 01 refuses an open candidate with 6, and 17 has it judged as `coscom::read_packet` judges a slice,
    // without 1. It copies the reader, so a loop over many bytes goes through `feed_in`.
    pub fn step(self, b: u8) -> Stepped
        ensures { StepIs result (step_of self b) }
    {
        let mut bytes = self.bytes;
        let step = step_in(&mut bytes, self.state, b);
        by_value(step, bytes)
    }

    // Feeds a chunk up to the first byte that is answered; with no answer it takes all of it. A chunk of more than
    // 65,536 bytes is cut to its first 65,536.
    pub fn feed(self, chunk: &[u8]) -> ChunkFed
        ensures { ChunkAnswerIs result.next result.answer (chunk_of self chunk.now) }
    {
        let mut bytes = self.bytes;
        let ChunkStep { told, state, taken } = feed_in(&mut bytes, self.state, chunk);
        ChunkFed {
            answer: ChunkAnswer { told, taken },
            next: LineReader { bytes, state },
        }
    }

    // Ends the input: a candidate that is open is truncated, refusal 6, and the reader is as a new one.
    pub fn finish(self) -> Stepped
        ensures { StepIs result (finish_of self) }
    {
        by_value(finish_in(self.state), self.bytes)
    }
}

// The treadmill line's protocol. There is one kind of candidate.
#[derive(Clone, Copy)]
struct Treadmill;

impl LineProtocol<254> for Treadmill {
    type Kind = ();

    type Outline = Outline;

    ghost use Rattle.std.specs.Prelude.{◌≡◌, None, Some, is_some, refl};
    ghost use Rattle.std.proofs.Common.{ap, ◌∙◌};
    ghost use Rattle.coscom.specs.Answers.{judge_answer};
    ghost use Rattle.coscom.proofs.FlagLaws.{no_flag, outside_no_flag};
    ghost use Rattle.coscom_line.specs.Outcome.{Outcome, told_means, summary_of, says, is_answer};
    ghost use Rattle.coscom_line.specs.Reader.{coscom, coscom_bounds, ends_run};

    ghost Answer = { Outcome };

    ghost protocol = { λ p. coscom };

    ghost bounds = { λ p. coscom_bounds };

    ghost tells = { λ told o. told_means told ≡ summary_of o };

    ghost is_answer = { is_answer };

    ghost ends_run = { ends_run };

    ghost stands = { λ s. 0 };

    fn role(self, b: u8) -> Role<()> {
        match b {
            coscom::START => Role::Start(()),
            coscom::STOP => Role::Stop,
            _ => Role::Plain,
        }
    }

    // Both flags are bytes from 01 to 17, and no other byte of a packet is.
    fn run(self, s: &[u8]) -> usize {
        lists::count_before(s, coscom::START, coscom::STOP)
    }

    fn judge(self, _kind: (), bytes: &mut [u8; 254], len: usize) -> Result<Outline, Refusal> {
        coscom::judge_array(bytes, len)
    }

    // Every packet is held.
    fn whole(self, _bytes: &mut [u8; 254], _s: &[u8]) -> Option<framing::Whole<Outline>> {
        None
    }

    ghost room = { λ p. refl };

    ghost none_in_run = { λ p b h. no_flag b (outside_no_flag b h) };

    ghost is_told = { λ told o h. elim told as (λ t. is_some t ≡ says (told_means t)) [ None ↦ refl | Some r ↦ refl ] ∙ ap says h };

    ghost nothing_told = { λ p. refl };

    ghost truncated_told = { λ p. unfold judge_answer in refl };

    ghost long_told = { λ p. unfold judge_answer in refl };
}

// Feeds a byte to a reader whose array is lent and whose state goes in and comes back, as `LineReader::step` does.
#[tactic(auto, using(crate::proofs::Handed::step_handed))]
pub fn step_in(bytes: &mut [u8; 254], state: State, b: u8) -> LentStep
    ensures { LentStepIs bytes.new result (step_of (lent_reader bytes.old state) b) }
{
    let step = calls::step(Treadmill, bytes, state, b);
    LentStep {
        told: step.told,
        state: step.held,
    }
}

// Ends the input of a reader whose array is lent and whose state goes in and comes back, as `LineReader::finish` does.
// The array stays as it is.
pub fn finish_in(state: State) -> LentStep
    ensures { (bytes : List ℕ) → LentStepIs bytes result (finish_of (lent_reader bytes state)) }
{
    let ended = calls::end(Treadmill, state);
    LentStep {
        told: ended.told,
        state: ended.held,
    }
}

// Feeds a chunk to a reader whose array is lent and whose state goes in and comes back, as `LineReader::feed` does, and
// copies nothing but the bytes that it holds.
pub fn feed_in(bytes: &mut [u8; 254], state: State, chunk: &[u8]) -> ChunkStep
    ensures { ChunkStepIs bytes.new result
        (chunk_of (lent_reader bytes.old state) chunk.now) }
{
    let most = CHUNK_LIMIT.min(chunk.len());
    let fed = feeds::feed(Treadmill, bytes, state, &chunk[..most]);
    ChunkStep {
        told: fed.told,
        state: fed.held,
        taken: fed.taken,
    }
}

// The answer by value, from the one over a lent array and the array.
fn by_value(step: LentStep, bytes: [u8; 254]) -> Stepped
    ensures { (t : ReaderTurn) → LentStepIs bytes step t → Whole t → StepIs result t }
{
    let LentStep { told, state } = step;
    Stepped {
        answer: StepAnswer {
            told,
            unit: beside(told, bytes),
        },
        next: LineReader { bytes, state },
    }
}

// The array that stands beside what is told: a packet's data unit, which is the first bytes of the reader's array, and
// zeros after it.
fn beside(told: Told, bytes: [u8; 254]) -> [u8; 254]
    ensures { result ≡ beside_told (told_means told) bytes }
{
    match told {
        Some(Ok(found)) => first_of(bytes, found.len),
        Some(Err(_)) | None => [0u8; 254],
    }
}

// The first bytes of an array, and zeros after them.
fn first_of(bytes: [u8; 254], len: usize) -> [u8; 254]
    ensures { result ≡ padded (take len bytes) }
{
    let mut unit = bytes;
    lists::clear_from(&mut unit, len);
    unit
}
