// Whether contents stop a workout, the question that the listing's `stop=yes` answers (document 01, "Listing").
ghost use Rattle.std.specs.Prelude.{◌≡◌, Bool};
ghost use Rattle.command.specs.Entries.{Entry, commands, entry, parse};
ghost use Rattle.command.specs.Stop.{any_in, stops_within, stops_workout, terminates, AnswersAs};

use crate::entries;
use crate::entries::Cursor;

// The wrapper in which the command counts.
const WRAPPER: u8 = 0x76;

const TERMINATE: u8 = 0x13;

// An unsound list holds nothing, whatever stands before the count that is unsound.
const IN_UNSOUND: bool = false;

// Whether a 76 wrapper of the top list holds command 13 with data 01 02. Both lists have to be sound.
pub fn stops_workout(contents: &[u8]) -> bool
    ensures { result ≡ stops_workout contents.now }
{
    any(contents, stops_within)
}

// Whether an entry of the top list is a wrapper that holds the command. No byte of its list is a wrapper.
fn stops_within(byte: u8, body: &[u8]) -> bool
    ensures { result ≡ stops_within (entry byte body.now) }
{
    byte == WRAPPER && any(body, terminates)
}

// Whether an entry of a wrapper's list is the command.
fn terminates(byte: u8, body: &[u8]) -> bool
    ensures { result ≡ terminates (entry byte body.now) }
{
    byte == TERMINATE && body == [0x01, 0x02].as_slice()
}

// Whether a sound list has an entry that passes a test of its byte and its data. The list is read to its end, since a
// later count that is unsound makes the answer no.
fn any<F: Fn(u8, &[u8]) -> bool>(list: &[u8], test: F) -> bool
    requires { F.IsAlwaysCallable test }
    ensures { (p : Entry → Bool) → AnswersAs (F.post test) p → result ≡ any_in p (parse commands list.now 0) }
{
    let mut cursor = Cursor { at: 0 };
    let mut is_found = false;
    // Stays a loop: an iterator would be a second walk beside that of `step_calls` (docs/PROOFS.md), and no shorter.
    loop {
        match cursor.step(entries::COMMANDS, list) {
            Ok(Some((entry, next))) => {
                // The entry ends in the list, so the data is cut without the test in `data`, and the entry is tested
                // before `is_found`: with either first, short commands take up to twice as many instructions.
                if test(entry.byte, &list[entry.start..next.at]) {
                    is_found = true;
                }
                cursor = next;
            }
            Ok(None) => return is_found,
            Err(_) => return IN_UNSOUND,
        }
    }
}
