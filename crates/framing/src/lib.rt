// A line protocol, whatever its flags and its frames: the open candidate of a line, held in a lent array as its bytes
// come and judged where it ends. Beside it stand definitions and laws: the reference decoder that document 01 calls the
// rule for the line, plain and with positions (document 02, No. 7), demand 3 over each and as a table, a count beside a
// reader that has none, and bytes given in chunks (document 02, No. 4).
#![tactic(auto)]

pub mod calls;
pub mod feeds;
mod runs;

use answer::Refusal;

// How many bytes are held right after a flag.
const FRESH: usize = 0;

// What a byte does on the line: it opens a candidate of a kind, ends the one that is open, or does neither.
#[derive(Clone, Copy)]
pub enum Role<K> {
    Start(K),
    Stop,
    Plain,
}

// Outside of any candidate; in one of a kind; in one that is too long for its array, which is not held.
#[derive(Clone, Copy)]
pub enum Mode<K> {
    Outside,
    Inside(K),
    Overlong,
}

// What is held: how many bytes of an array, and the mode. A length over the array's counts as the array's, so every value
// is one. Stays beside the array, which C lends at each call.
#[derive(Clone, Copy)]
pub struct Held<K> {
    pub len: usize,
    pub mode: Mode<K>,
}

// What a call tells, where it tells anything, and what is held afterwards. What is told of an accepted candidate stands
// first in the array.
#[derive(Clone, Copy)]
pub struct Step<K, T> {
    pub told: Option<Result<T, Refusal>>,
    pub held: Held<K>,
}

// What is told of a candidate that stands whole in a chunk, and how many bytes it has with its flags.
#[derive(Clone, Copy)]
pub struct Whole<T> {
    pub told: Result<T, Refusal>,
    pub taken: usize,
}

// A line protocol whose candidates have room for so many bytes between their flags.
pub trait LineProtocol<const ROOM: usize>: Copy {
    type Kind: Copy;

    type Outline: Copy;

    ghost use Rattle.std.specs.Prelude.{◌≡◌, Bool, false, List, ℕ, None, Some, Err, Option, Result, is_some, take};
    ghost use Rattle.lists.specs.Choice.{count_before};
    ghost use Rattle.answer.specs.declared.Refusal.{Refusal};
    ghost use Rattle.answer.specs.declared.Refusal.TheVariants.{Truncated, TooLong};
    ghost use Rattle.framing.specs.Reference.{Protocol, plain};
    ghost use Rattle.framing.specs.Bounded.{Bounds};
    ghost use Rattle.framing.specs.Held.{role_told};
    ghost use Rattle.framing.specs.Fed.{WholeIs, whole_taken};

    // The answers, the rule for the line, what is held, and what is told of an answer.
    ghost Answer: { Type 0 };

    ghost protocol: { Self → Protocol Answer };

    ghost bounds: { Self → Bounds Self.Kind Answer };

    ghost tells: { Option (Result Self.Outline Refusal) → Answer → Type 0 };

    // Which bytes end a run: the flags, and maybe others.
    ghost ends_run: { ℕ → Bool };

    // Whether anything is told of an answer.
    ghost is_answer: { Answer → Bool };

    // How many bytes the candidate has that bytes begin with and that is judged as it stands. 0 where it has to be held, or
    // where there is none.
    ghost stands: { List ℕ → ℕ };

    fn role(self, b: u8) -> Role<Self::Kind>
        ensures { result ≡ role_told ((protocol self).role b) ((bounds self).kind b) };

    // How many bytes stand before the first that ends a run.
    fn run(self, s: &[u8]) -> usize
        ensures { result ≡ count_before ends_run s.now };

    // Judges the first `len` bytes of an array (all where it has fewer) as what stands between the flags of a candidate.
    fn judge(
        self,
        kind: Self::Kind,
        bytes: &mut [u8; ROOM],
        len: usize,
    ) -> Result<Self::Outline, Refusal>
        ensures told { tells (Some result) ((bounds self).judge kind (take len bytes.old)) }
        ensures left { bytes.new ≡ (bounds self).left ((bounds self).judge kind (take len bytes.old)) bytes.old };

    // Judges the candidate that bytes begin with, outside of any, as it stands, where it stands whole in them and the array
    // could hold it. One that has to be held is none, and leaves the array as it was.
    fn whole(self, bytes: &mut [u8; ROOM], s: &[u8]) -> Option<Whole<Self::Outline>>
        ensures is { WholeIs (protocol self) (bounds self) tells is_answer bytes.old bytes.new s.now result }
        ensures stands { whole_taken result ≡ stands s.now };

    ghost room: { (p : Self) → (bounds p).capacity ≡ ROOM };

    ghost none_in_run: { (p : Self) (b : ℕ) → ends_run b ≡ false → (protocol p).role b ≡ plain };

    ghost nothing_told: { (p : Self) → tells None (protocol p).nothing };

    ghost truncated_told: { (p : Self) → tells (Some (Err Truncated)) (protocol p).truncated };

    ghost is_told: { (told : Option (Result Self.Outline Refusal)) (a : Answer) → tells told a → is_some told ≡ is_answer a };

    ghost long_told: { (p : Self) → tells (Some (Err TooLong)) (bounds p).long };
}
