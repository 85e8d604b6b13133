// How bytes and answers are printed.
use answer::Refusal;
use std::fmt;

// Two hexadecimal digits for each byte.
#[derive(Clone, Copy)]
pub(crate) struct Hex<'a>(pub(crate) &'a [u8]);

impl fmt::Display for Hex<'_> {
    fn fmt<W: fmt::Write>(&self, f: &mut fmt::Formatter<W>) -> fmt::Result {
        for byte in self.0 {
            write!(f, "{byte:02X}")?;
        }
        Ok(())
    }
}

// An answer, or its refusal.
#[derive(Clone, Copy)]
pub(crate) struct Outcome<T>(pub(crate) Result<T, Refusal>);

impl<T: fmt::Display> fmt::Display for Outcome<T> {
    fn fmt<W: fmt::Write>(&self, f: &mut fmt::Formatter<W>) -> fmt::Result {
        match &self.0 {
            Ok(answer) => write!(f, "{answer}"),
            Err(why) => write!(f, "refused:{}", why.number()),
        }
    }
}

// What is read on a wire, or its refusal.
#[derive(Clone, Copy)]
pub(crate) struct Reading<T>(pub(crate) Result<T, Refusal>);

impl<T: fmt::Display> fmt::Display for Reading<T> {
    fn fmt<W: fmt::Write>(&self, f: &mut fmt::Formatter<W>) -> fmt::Result {
        match &self.0 {
            Ok(read) => write!(f, " kind={read}"),
            Err(why) => write!(f, " kind=refused code={}", why.number()),
        }
    }
}

// The bytes that a writer leaves first in its output, or its refusal.
pub(crate) fn written<'a, F: FnOnce(&mut [u8]) -> Result<usize, Refusal>>(
    room: &'a mut [u8],
    write: F,
) -> Outcome<Hex<'a>>
    requires { F.IsAlwaysCallable write }
{
    Outcome(write(room).map(|len| Hex(first(room, len))))
}

// So many bytes from the first on, as far as they go.
pub(crate) fn first(bytes: &[u8], len: usize) -> &[u8] {
    bytes.get(..len).unwrap_or(bytes)
}
