// Command lists: the n-th command at the top or inside a wrapper, its data as a part of the caller's contents, and
// whether contents stop a workout.
// Document 01, "Commands and replies".
#![tactic(auto)]

pub mod cursor;
pub mod entries;
pub mod stop;
pub mod traversal;

ghost use Rattle.std.specs.Prelude.{◌≡◌};
ghost use Rattle.command.specs.Answers.{found_means};
ghost use Rattle.command.specs.Parts.{IsData};
ghost use Rattle.command.specs.Commands.{is_wrapper, nth_command, nth_inside};

use answer::Refusal;
use entries::{Cursor, Entry};

// The n-th command at the top. Refusals 7 and 15.
pub fn nth(contents: &[u8], n: usize) -> Result<Entry, Refusal>
    ensures { found_means result ≡ nth_command contents.now n }
{
    entries::nth(entries::COMMANDS, contents, Cursor { at: 0 }, n)
}

// The data of the n-th command, as a part of the contents. Where `nth` refuses, it is the empty part at the beginning.
pub fn nth_data(contents: &[u8], n: usize) -> &[u8]
    ensures { IsData contents.entry result (nth_command contents.now n) }
{
    entries::found_part(contents, nth(contents, n))
}

// The n-th command inside the w-th at the top. A list inside is read as a top list is, so no byte of it is a wrapper.
// Refusals 7 and 15.
pub fn nth_inside(contents: &[u8], w: usize, n: usize) -> Result<Entry, Refusal>
    ensures { found_means result ≡ nth_inside contents.now w n }
{
    let outer = nth(contents, w)?;
    if !is_wrapper(outer.byte) {
        return Err(Refusal::Absent);
    }
    let inner = nth(outer.data(contents), n)?;
    let start = outer.start + inner.start;
    Ok(Entry { start, ..inner })
}

// The data of the n-th command inside the w-th, as a part of the contents. Where `nth_inside` refuses, it is the empty
// part at the beginning.
pub fn nth_inside_data(contents: &[u8], w: usize, n: usize) -> &[u8]
    ensures { IsData contents.entry result (nth_inside contents.now w n) }
{
    entries::found_part(contents, nth_inside(contents, w, n))
}

// Whether a command at the top has a list of commands for its data.
pub fn is_wrapper(byte: u8) -> bool
    ensures { result ≡ is_wrapper byte }
{
    matches!(byte, 0x1A | 0x76 | 0x77 | 0x7E | 0x7F)
}
