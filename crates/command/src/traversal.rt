// A command list read from an index on: what a command cursor's functions call with its contents and its index.
// Stays beside the cursor's methods: `Called`, `CalledData` and `CalledMove` (docs/PROOFS.md) are about calls of these.
ghost use Rattle.std.specs.Prelude.{◌≡◌};
ghost use Rattle.command.specs.Answers.{found_means};
ghost use Rattle.command.specs.Parts.{IsData};
ghost use Rattle.command.specs.Traversal.{command_at, index_after};

use crate::entries;
use crate::entries::{Cursor, Entry};
use answer::Refusal;

// The command at an index. The counts from there on are checked first. Refusals 7 and 15; at the end and past it 15.
pub fn command_at(contents: &[u8], at: usize) -> Result<Entry, Refusal>
    ensures { found_means result ≡ command_at contents.now at }
{
    entries::nth(entries::COMMANDS, contents, Cursor { at }, 0)
}

// The data of the command at an index, as a part of the contents. Where `command_at` refuses, it is the empty part at
// the beginning.
pub fn data_at(contents: &[u8], at: usize) -> &[u8]
    ensures { IsData contents.entry result (command_at contents.now at) }
{
    entries::found_part(contents, command_at(contents, at))
}

// The index after the command at an index; the same index where `command_at` refuses.
pub fn index_after(contents: &[u8], at: usize) -> usize
    ensures { result ≡ index_after contents.now at }
{
    match command_at(contents, at) {
        Ok(entry) => entry.start + entry.len,
        Err(_) => at,
    }
}
