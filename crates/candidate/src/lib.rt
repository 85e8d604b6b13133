// The open candidate of a line: its bytes are held in a lent array as they come, one at a time or by the chunk, and it is
// judged where it ends. Document 01, "The line"; document 02, No. 4 and No. 9. Positions are the line reader's.
#![tactic(auto)]

pub mod chunk;
mod whole;

ghost use Rattle.std.specs.Prelude.{◌≡◌, List, ℕ};
ghost use Rattle.candidate.specs.Holder.{HeldStepIs, holder, step_held, finish_held};

use answer::Refusal;
use frame::{Kind, Origin, Outline, flags};
use framing::{LineProtocol, Role, Whole, calls};

// What a call tells. A frame's contents are the first bytes of an array beside it.
pub type Told = Option<Result<Outline, Refusal>>;

// Outside of any candidate; in one of a kind; in one that is too long to be a frame, which is not held.
pub type Mode = framing::Mode<Kind>;

// What is held: how many bytes of an array, the mode, and where the bytes come from, which no call changes. A length over
// 118 counts as 118, so every value is one.
#[derive(Clone, Copy)]
pub struct Held {
    pub len: usize,
    pub mode: Mode,
    pub origin: Origin,
}

// The answer to a call over a lent array, and what is held afterwards. Where a frame is told, its contents stand first in
// the array.
#[derive(Clone, Copy)]
pub struct HeldStep {
    pub told: Told,
    pub held: Held,
}

// The answer to a chunk over a lent array, what is held afterwards, and how many bytes of the chunk were taken. `began` is
// how many there are up to and with the last start flag before the byte that is answered, and `opened` up to and with the
// last of all that were taken; each is 0 where there is none.
// Stays a 0 for none, and no Option: the clause `Opens` says both as the number `last_start`, which counts so.
#[derive(Clone, Copy)]
pub struct HeldChunk {
    pub told: Told,
    pub held: Held,
    pub taken: usize,
    pub began: usize,
    pub opened: usize,
}

// The rowing line's protocol, at an origin.
#[derive(Clone, Copy)]
struct Rowing {
    origin: Origin,
}

impl LineProtocol<118> for Rowing {
    type Kind = Kind;

    type Outline = Outline;

    ghost use Rattle.std.specs.Prelude.{◌≡◌, None, Some, is_some, refl};
    ghost use Rattle.std.proofs.Common.{ap, ◌∙◌};
    ghost use Rattle.frame.specs.Flags.{is_flag};
    ghost use Rattle.frame.proofs.FlagLaws.{no_flag};
    ghost use Rattle.candidate.specs.Outcome.{Outcome, told_means, summary_of};
    ghost use Rattle.candidate.specs.Rowing.{rowing, rowing_bounds, whole_count};
    ghost use Rattle.candidate.specs.Feed.{says, is_answer};
    ghost use Rattle.frame.specs.Answers.{judge_answer};

    ghost Answer = { Outcome };

    ghost protocol = { λ p. rowing p.origin };

    ghost bounds = { λ p. rowing_bounds p.origin };

    ghost tells = { λ told o. told_means told ≡ summary_of o };

    ghost is_answer = { is_answer };

    ghost ends_run = { is_flag };

    ghost stands = { whole_count };

    fn role(self, b: u8) -> Role<Kind> {
        match b {
            flags::EXTENDED_START => Role::Start(Kind::Extended),
            flags::STANDARD_START => Role::Start(Kind::Standard),
            flags::STOP => Role::Stop,
            _ => Role::Plain,
        }
    }

    fn run(self, s: &[u8]) -> usize {
        lists::count_before(s, flags::EXTENDED_START, flags::STOP)
    }

    // Never inlined, because a call that ends no candidate is slower with the work of a judge inside.
    #[inline(never)]
    fn judge(self, kind: Kind, bytes: &mut [u8; 118], len: usize) -> Result<Outline, Refusal> {
        frame::judge_array(self.origin, kind, bytes, len)
    }

    #[tactic(auto, using(crate::proofs::WholeLaws::whole_is, crate::proofs::WholeLaws::whole_counted))]
    fn whole(self, bytes: &mut [u8; 118], s: &[u8]) -> Option<Whole<Outline>> {
        whole::judge(self.origin, bytes, s)
    }

    ghost room = { λ p. refl };

    ghost none_in_run = { λ p b h. no_flag b h };

    ghost nothing_told = { λ p. refl };

    ghost is_told = { λ told o h. elim told as (λ t. is_some t ≡ says (told_means t)) [ None ↦ refl | Some r ↦ refl ] ∙ ap says h };

    ghost truncated_told = { λ p. unfold judge_answer in refl };

    ghost long_told = { λ p. unfold judge_answer in refl };
}

// Takes a byte. Of a chunk nothing but flags is taken so.
#[tactic(auto, using(crate::proofs::Handed::step_handed))]
pub fn step_in(bytes: &mut [u8; 118], held: Held, b: u8) -> HeldStep
    ensures { HeldStepIs bytes.new result (step_held (holder bytes.old held) b) }
{
    let Held { len, mode, origin } = held;
    let step = calls::step(Rowing { origin }, bytes, framing::Held { len, mode }, b);
    HeldStep {
        told: step.told,
        held: Held {
            len: step.held.len,
            mode: step.held.mode,
            origin,
        },
    }
}

// Ends the input: a candidate that is open is truncated. The array stays as it is.
pub fn finish_in(held: Held) -> HeldStep
    ensures { (bytes : List ℕ) → HeldStepIs bytes result (finish_held (holder bytes held)) }
{
    let Held { len, mode, origin } = held;
    let ended = calls::end(Rowing { origin }, framing::Held { len, mode });
    HeldStep {
        told: ended.told,
        held: Held {
            len: ended.held.len,
            mode: ended.held.mode,
            origin,
        },
    }
}
