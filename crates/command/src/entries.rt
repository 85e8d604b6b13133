// "Byte, count, data", the one shape of long commands and of a reply's items: a byte below a limit is followed by a
// count.
ghost use Rattle.std.specs.Prelude.{◌≡◌, IfErr, take, drop};
ghost use Rattle.answer.specs.declared.Refusal.TheVariants.{BadCount};
ghost use Rattle.command.specs.Entries.{parse, nth_in};
ghost use Rattle.command.specs.Answers.{found_means, counted_means, part_of, counted};
ghost use Rattle.command.specs.Parts.{StandsAt, place_in, start_of};
ghost use Rattle.command.specs.Steps.{step_means, entry_means, step_at};

use answer::Refusal;

// Command bytes below this have a count.
pub const COMMANDS: usize = 0x80;

// An index in contents, between two entries.
#[derive(Clone, Copy, Debug, PartialEq, Eq)]
pub struct Cursor {
    pub at: usize,
}

// An entry's byte, where its data starts in the contents and how long it is.
#[derive(Clone, Copy, Debug, PartialEq, Eq)]
pub struct Entry {
    pub byte: u8,
    pub start: usize,
    pub len: usize,
}

// Contents whose counts are not all sound: the index of the byte of the first entry whose count is missing or goes
// beyond the end.
#[derive(Clone, Copy, Debug, PartialEq, Eq)]
pub struct Unsound {
    pub at: usize,
}

impl From<Unsound> for Refusal {
    ghost from_gives = { λ _ r. r ≡ BadCount };

    fn from(_unsound: Unsound) -> Refusal {
        Refusal::BadCount
    }
}

impl Cursor {
    // One step is one entry: the entry at the cursor and the cursor after it, or nothing at the end.
    pub fn step(self, limit: usize, s: &[u8]) -> Result<Option<(Entry, Cursor)>, Unsound>
        ensures entry { step_means result ≡ step_at limit s.now self.at }
        ensures place { IfErr result (λ unsound. unsound.at ≡ self.at) }
    {
        let at = self.at;
        let Some(&byte) = s.get(at) else {
            return Ok(None);
        };
        if limit <= byte as usize {
            let next = Cursor { at: at + 1 };
            let entry = Entry {
                byte,
                start: next.at,
                len: 0,
            };
            return Ok(Some((entry, next)));
        }
        let Some(&count) = s.get(at + 1) else {
            return Err(Unsound { at });
        };
        let start = at + 2;
        let len = count as usize;
        if s.len() - start < len {
            return Err(Unsound { at });
        }
        let entry = Entry { byte, start, len };
        Ok(Some((entry, Cursor { at: start + len })))
    }

    // The same where there has to be an entry. Refusals 7 and 15.
    fn entry(self, limit: usize, s: &[u8]) -> Result<(Entry, Cursor), Refusal>
        ensures { entry_means result ≡ step_at limit s.now self.at }
    {
        self.step(limit, s)?.ok_or(Refusal::Absent)
    }
}

// How many entries there are from a cursor on.
// Stays three parameters: `count_calls` and `nth_calls` (docs/PROOFS.md) are about calls with them.
// Stays a loop: an iterator would be a second walk beside that of `step_calls` (docs/PROOFS.md), and no shorter.
pub fn count(limit: usize, s: &[u8], from: Cursor) -> Result<usize, Unsound>
    ensures { counted_means result ≡ counted from.at (parse limit (drop from.at s.now) 0) }
{
    let mut cursor = from;
    let mut n: usize = 0;
    loop {
        match cursor.step(limit, s) {
            Ok(Some((_, next))) => {
                n += 1;
                cursor = next;
            }
            Ok(None) => return Ok(n),
            Err(_) => return Err(Unsound { at: cursor.at }),
        }
    }
}

// The n-th entry from a cursor on. Every count is looked at once, those after the entry as well. Refusals 7 and 15.
pub fn nth(limit: usize, s: &[u8], from: Cursor, n: usize) -> Result<Entry, Refusal>
    ensures { found_means result ≡ nth_in limit from.at (parse limit (drop from.at s.now) 0) n }
{
    let mut cursor = from;
    for _ in 0..n {
        let (_, next) = cursor.entry(limit, s)?;
        cursor = next;
    }
    let (entry, next) = cursor.entry(limit, s)?;
    count(limit, s, next)?;
    Ok(entry)
}

impl Entry {
    // An entry's data, as a part of the contents that it was found in.
    pub fn data(self, s: &[u8]) -> &[u8]
        ensures { StandsAt s.entry result (place_in s.now self.start) (take self.len (drop self.start s.now)) }
    {
        part(s, self.start, self.len)
    }
}

// The part of a slice that starts at an index and is so long, as far as the slice goes. An empty part stands at its
// index too, and at the beginning where the index is past the end.
pub fn part(s: &[u8], start: usize, len: usize) -> &[u8]
    ensures { StandsAt s.entry result (place_in s.now start) (take len (drop start s.now)) }
{
    let all = s.len();
    if all < start {
        return &s[..0];
    }
    let rest = &s[start..];
    &rest[..len.min(rest.len())]
}

// The part of the contents that an answer names. For a refusal it is the empty part at the beginning.
pub fn found_part(s: &[u8], found: Result<Entry, Refusal>) -> &[u8]
    ensures { StandsAt s.entry result (place_in s.now (start_of (found_means found)))
        (part_of s.now (found_means found)) }
{
    match found {
        Ok(entry) => entry.data(s),
        Err(_) => &s[..0],
    }
}
