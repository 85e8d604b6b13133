// Lists a trace, the file that its argument names or standard input, at most 4,294,967,295 bytes, as a line for each
// answer and the totals (document 01, "Listing"). Input is read and output is written in pieces of up to 65,536 bytes.
// What is written is what `trace` proves of any cutting. No contract can say what the system read or wrote, or whether it
// failed: those of this program say which source its arguments name, how many bytes were listed, which state they lead
// to, how long their text is, and that the reason for which it stopped fits these; and of a reader that says which bytes
// it gives, and a writer that says which it holds, that the bytes listed are the first of these and that their text was
// written.
#![tactic(auto)]

ghost use Rattle.std.specs.Prelude.{◌≡◌, ◌-◌, ◌<◌, ◌≤◌, length, take};
ghost use Rattle.text.specs.Writing.{line_room};
ghost use Rattle.trace.specs.Machine.{last_room, last_text, texts};
ghost use Rattle.std.specs.Option.{option_copied};
ghost use Rattle.listing.specs.Arguments.{source_of_word, source_of};
ghost use Rattle.listing.specs.Runs.{Pumps, Finishes, Runs};
ghost use Rattle.listing.specs.Private.{Fetches, Takes, Closes};
ghost use Rattle.listing.specs.Streams.{Gives, Carries};

use std::env::{Env, FillError};
use std::fs::File;
use std::io;
use std::io::{Cursor, ErrorKind, IsTerminal, Read, Write};
use trace::Listing;

// The most bytes that are read: as many as a line reader takes.
const LIMIT: u64 = line::LIMIT as u64;

// The room for a name. A longer one is no path.
const NAME_ROOM: usize = 4096;

// How much is read, and how much is written, at once.
const ROOM: usize = 65536;

// What the arguments ask for: to list standard input or the file that the only argument names, or to say that this name
// is too long, or how the program is used.
// Stays one enum, the two misuses included: `source_of` of the specification gives all four.
#[derive(Clone, Copy)]
enum Source {
    StandardInput,
    File,
    TooLong,
    Usage,
}

// Why the program stops: what the last read gave, the limit, or whether the last write took all. Each reason holds the
// answer that it goes by.
#[derive(Clone, Copy)]
enum Stop {
    LastRead(io::Result<usize>),
    AtLimit,
    LastWrite(io::Result<()>),
}

// How long the last text is, and whether all of it was written, or why not.
#[derive(Clone, Copy)]
struct Sent {
    len: u64,
    whole: io::Result<()>,
}

// How many bytes of a chunk were taken and the state after them, how long their lines are, and whether all of them were
// written, or why not.
#[derive(Clone, Copy)]
struct Pumped {
    taken: usize,
    wrote: u64,
    whole: io::Result<()>,
    next: Listing,
}

// Why the program stopped, and how many bytes were read and written. The number of bytes written wraps at 2^64.
#[derive(Clone, Copy)]
struct Ran {
    stop: Stop,
    read: u64,
    wrote: u64,
}

// Stays a read of each argument into an array: `env::args` is an error where one is not UTF-8 and says not which, and a
// name that is longer than the array is to be said to be too long.
fn main(rt: HostRuntime) {
    let mut word = [0u8; NAME_ROOM];
    let first = match rt.arg(1, &mut word) {
        Ok(len) => Some(&word[..len]),
        Err(_) => None,
    };
    match choose(count_arguments(&rt), first) {
        Source::StandardInput => list(&rt, &mut rt.stdin(), b"standard input"),
        Source::File => list_file(&rt, first.unwrap_or(b"")),
        Source::TooLong => say(&rt, &[b"the file's name: File name too long\n"]),
        Source::Usage => say_usage(&rt),
    }
}

// How many arguments there are, the program's own name among them.
fn count_arguments(env: &impl Env) -> usize {
    (0..usize::MAX)
        .find(|i| matches!(env.arg(*i, &mut []), Err(FillError::NotPresent)))
        .unwrap_or(usize::MAX)
}

// What the command line asks for: it has so many words, the program's own name among them, and `first` is the first
// argument if that is whole.
fn choose(count: usize, first: Option<&[u8]>) -> Source
    ensures { result ≡ source_of (count - 1) (option_copied first.entry) }
{
    match (count, first) {
        (0 | 1, _) => Source::StandardInput,
        (2, Some(word)) => source_of_word(word),
        (2, None) => Source::TooLong,
        _ => Source::Usage,
    }
}

// What one argument asks for.
fn source_of_word(word: &[u8]) -> Source
    ensures { result ≡ source_of_word word.now }
{
    match word {
        [b'-'] => Source::StandardInput,
        [] | [b'-', ..] => Source::Usage,
        _ => Source::File,
    }
}

fn say_usage(rt: &HostRuntime) {
    say(
        rt,
        &[b"usage: listing [FILE]  (without FILE, or with -, standard input is read)\n"],
    );
}

fn list_file(rt: &HostRuntime, name: &[u8]) {
    match open(rt, name) {
        Ok(mut file) => list(rt, &mut file, name),
        Err(error) => say_error(rt, name, error),
    }
}

// The system takes a name of any bytes, and the library only one that is text.
fn open(rt: &HostRuntime, name: &[u8]) -> io::Result<File> {
    let Ok(path) = str::from_utf8(name) else {
        return Err(io::Error::new(ErrorKind::InvalidInput, "the name is not UTF-8"));
    };
    File::open(rt, path)
}

// Lists the trace that a reader gives. Whoever sits at a terminal is told that the program waits for it.
fn list<R: Read + IsTerminal>(rt: &HostRuntime, reader: &mut R, name: &[u8]) {
    if reader.is_terminal() {
        say(rt, &[b"listing: waiting for a trace from ", name, b"\n"]);
    }
    // Stay two arrays: the program holds these bytes however long the trace is, and asks for no memory.
    let mut input = [0u8; ROOM];
    let mut out = [0u8; ROOM];
    let ran = run(reader, &mut rt.stdout(), &mut input, &mut out);
    say_failure(rt, ran.stop, name);
}

fn say_failure(rt: &HostRuntime, stop: Stop, name: &[u8]) {
    match stop {
        Stop::LastRead(Err(error)) => say_error(rt, name, error),
        Stop::LastWrite(Err(error)) => say_error(rt, b"standard output", error),
        _ => {}
    }
}

fn say_error(rt: &HostRuntime, what: &[u8], error: io::Error) {
    let mut words = Cursor::new([0u8; 320]);
    let _ = write!(words, "{error}");
    let len = (words.position() as usize).min(320);
    let room = words.into_inner();
    say(rt, &[what, b": ", plain(&room[..len]), b"\n"]);
}

// An error's words without the number that stands after those of the system.
fn plain(words: &[u8]) -> &[u8] {
    let number = b" (os error ";
    let at = words
        .windows(number.len())
        .position(|part| part == number.as_slice());
    match at {
        Some(at) => &words[..at],
        None => words,
    }
}

// Whoever reads standard error gets what can be written there.
fn say(rt: &HostRuntime, parts: &[&[u8]]) {
    let mut to = rt.stderr();
    for part in parts {
        let _ = to.write_all(part);
    }
}

// Reads and lists until the input ends, or the limit is reached, and writes the totals. Where a read or a write fails,
// no totals are written.
// Stay slices with a bound, here and below: a type of an output that is long enough would ask more of what calls `run`.
// Stay a writer and an output beside a state: in a struct that held both borrows each clause would name them by ghosts.
fn run<R: Read, W: Write>(reader: &mut R, writer: &mut W, input: &mut [u8], out: &mut [u8]) -> Ran
    requires input_nonzero { 0 < length input.old }
    requires last_room_in_bounds { last_room ≤ length out.old }
    ensures runs { Runs out.new result }
    ensures carries { Carries (R.remaining reader.old) (R.remaining reader.new) (W.contents writer.old)
        (W.contents writer.new) result }
{
    let mut state = trace::new();
    let mut read: u64 = 0;
    let mut wrote: u64 = 0;
    // Stays a `while`: a read gives as many bytes as the system has.
    while read < LIMIT {
        let n = match fetch(reader, input, LIMIT - read) {
            Ok(n) => n,
            Err(error) => {
                let stop = Stop::LastRead(Err(error));
                return Ran { stop, read, wrote };
            }
        };
        if n == 0 {
            return close(state, Stop::LastRead(Ok(n)), read, wrote, writer, out);
        }
        let pumped = pump(state, &input[..n], writer, out);
        state = pumped.next;
        read += n as u64;
        wrote = wrote.wrapping_add(pumped.wrote);
        if pumped.whole.is_err() {
            let stop = Stop::LastWrite(pumped.whole);
            return Ran { stop, read, wrote };
        }
    }
    close(state, Stop::AtLimit, read, wrote, writer, out)
}

// Reads once, at most `left` bytes. It asks for at least one byte, so that none is the end of the input.
fn fetch<R: Read>(reader: &mut R, input: &mut [u8], left: u64) -> io::Result<usize>
    requires input_nonzero { 0 < length input.old }
    requires left_nonzero { 0 < left }
    ensures fetches { Fetches (length input.old) left result }
    ensures takes { Takes (R.remaining reader.old) (R.remaining reader.new) result input.new }
{
    let most = input.len().min(left as usize);
    reader.read(&mut input[..most])
}

// Lists all of a chunk and writes what it gives. With room for the line of any answer each call takes a byte, so the loop
// ends.
fn pump<W: Write>(s: Listing, chunk: &[u8], writer: &mut W, out: &mut [u8]) -> Pumped
    requires { line_room ≤ length out.old }
    ensures pumps { Pumps s chunk.now result }
    ensures gives { Gives (W.contents writer.old) (W.contents writer.new) result.whole
        (texts s (take result.taken chunk.now)) }
{
    let mut state = s;
    let mut wrote: u64 = 0;
    let mut taken: usize = 0;
    // Stays a `while`: a call takes as many bytes as it has room for their lines.
    while taken < chunk.len() {
        let listed = trace::list(state, &chunk[taken..], out);
        state = listed.next;
        taken += listed.taken;
        wrote = wrote.wrapping_add(listed.wrote as u64);
        let whole = write_all(writer, &out[..listed.wrote]);
        if whole.is_err() {
            return Pumped {
                taken,
                wrote,
                whole,
                next: state,
            };
        }
    }
    Pumped {
        taken,
        wrote,
        whole: Ok(()),
        next: state,
    }
}

// Ends the program: the last text, and why it is the last.
fn close<W: Write>(
    s: Listing,
    stop: Stop,
    read: u64,
    wrote: u64,
    writer: &mut W,
    out: &mut [u8],
) -> Ran
    requires { last_room ≤ length out.old }
    ensures { Closes s stop read wrote out.old out.new (W.contents writer.old) (W.contents writer.new) result }
{
    let sent = finish(s, writer, out);
    match sent.whole {
        Ok(()) => Ran {
            stop,
            read,
            wrote: wrote.wrapping_add(sent.len),
        },
        Err(error) => Ran {
            stop: Stop::LastWrite(Err(error)),
            read,
            wrote,
        },
    }
}

// Writes the last text, and answers how long it is, also where a write fails.
fn finish<W: Write>(s: Listing, writer: &mut W, out: &mut [u8]) -> Sent
    requires { last_room ≤ length out.old }
    ensures finishes { Finishes s out.old out.new result }
    ensures gives { Gives (W.contents writer.old) (W.contents writer.new) result.whole (last_text s) }
{
    let len = trace::finish(s, out).unwrap();
    let whole = write_all(writer, &out[..len]);
    let len = len as u64;
    Sent { len, whole }
}

// Writes all of a text, or stops at the first write that takes nothing or fails.
// Stays a loop of its own: `write_all` of the library says nothing of what was written before a failure, as `Gives` does.
fn write_all<W: Write>(writer: &mut W, text: &[u8]) -> io::Result<()>
    ensures { Gives (W.contents writer.old) (W.contents writer.new) result text.now }
{
    let mut done: usize = 0;
    while done < text.len() {
        match writer.write(&text[done..])? {
            0 => {
                let why = "failed to write whole buffer";
                return Err(io::Error::new(ErrorKind::WriteZero, why));
            }
            n => done += n,
        }
    }
    Ok(())
}
