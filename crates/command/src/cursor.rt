// A cursor that stays on one frame's contents from command to command (document 01: "walker"). Each of its functions
// takes it apart and calls a function of `traversal`.
ghost use Rattle.std.specs.Prelude.{◌≡◌};
ghost use Rattle.command.specs.Answers.{found_means};
ghost use Rattle.command.specs.Parts.{IsData};
ghost use Rattle.command.specs.Commands.{nth_command};
ghost use Rattle.command.specs.Traversal.{command_at, index_after};

use crate::entries::Entry;
use crate::traversal;
use answer::Refusal;

// A list of commands, a frame's contents or a wrapper's data, and an index in it. Every index has an answer.
#[derive(Clone, Copy, Debug, PartialEq, Eq)]
pub struct CommandCursor<'a> {
    pub contents: &'a [u8],
    pub at: usize,
}

// What one step tells: the command at an index, and the index after it, or the same index where the command is refused.
#[derive(Clone, Copy, Debug, PartialEq, Eq)]
pub struct CommandStep {
    pub found: Result<Entry, Refusal>,
    pub next: usize,
}

impl<'a> CommandCursor<'a> {
    // A cursor at the first command of a list.
    pub fn new(contents: &'a [u8]) -> CommandCursor<'a>
        ensures { (result.contents ≡ contents.entry) × (result.at ≡ 0) }
    {
        CommandCursor { contents, at: 0 }
    }

    // The command at its index. The counts from there on are checked first. Refusals 7 and 15.
    pub fn command(self) -> Result<Entry, Refusal>
        ensures { found_means result ≡ command_at self.entry.contents.now self.entry.at }
    {
        traversal::command_at(self.contents, self.at)
    }

    // The data of the command at the cursor's index, as a part of the contents. Where `command` refuses, it is the
    // empty part at the beginning.
    pub fn data(self) -> &'a [u8]
        ensures { IsData self.entry.contents result (command_at self.entry.contents.now self.entry.at) }
    {
        traversal::data_at(self.contents, self.at)
    }

    // The cursor moved to the next command; unmoved where `command` refuses.
    pub fn advanced(self) -> CommandCursor<'a>
        ensures { (result.contents ≡ self.entry.contents)
            × (result.at ≡ index_after self.entry.contents.now self.entry.at) }
    {
        let at = traversal::index_after(self.contents, self.at);
        CommandCursor { at, ..self }
    }
}

// One step of a cursor, for callers that hold the contents and an index.
pub fn step_from(contents: &[u8], at: usize) -> CommandStep
    ensures { (found_means result.found ≡ command_at contents.now at)
        × (result.next ≡ index_after contents.now at) }
{
    let here = CommandCursor { contents, at };
    CommandStep {
        found: here.command(),
        next: here.advanced().at,
    }
}

// The n-th command, by the steps of a cursor from the first on. Refusals 7 and 15.
pub fn nth_by_steps(contents: &[u8], n: usize) -> Result<Entry, Refusal>
    ensures { found_means result ≡ nth_command contents.now n }
{
    let mut at = 0;
    for _ in 0..n {
        let step = step_from(contents, at);
        step.found?;
        at = step.next;
    }
    step_from(contents, at).found
}
