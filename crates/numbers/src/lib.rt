// A number of several bytes in a list, lowest byte first: definitions and laws at any width and index, and the functions
// that read one.
#![tactic(auto)]

ghost use Rattle.std.specs.Prelude.{◌≡◌, ◌+◌, ◌≤◌, leb, get_or, length};
ghost use Rattle.lists.specs.Choice.{pick};
ghost use Rattle.numbers.specs.Number.{number};

// The most bytes of a number.
const WIDEST: usize = 8;

// The number of at most eight bytes from an index on, lowest first. A byte past the end counts as 0.
pub fn number_at(s: &[u8], at: usize, width: usize) -> u64
    ensures { result ≡ number (pick (leb width 8) width 8) at s.now }
{
    let mut n: u64 = 0;
    for k in (0..width.min(WIDEST)).rev() {
        n = byte_at(s, at, k) + 256 * n;
    }
    n
}

// The byte that stands `k` after an index, 0 past the end.
fn byte_at(s: &[u8], at: usize, k: usize) -> u64
    ensures { result ≡ get_or s.now (at + k) 0 }
{
    if at < s.len() && k < s.len() - at {
        return u64::from(s[at + k]);
    }
    0
}

// The number of eight bytes from an index on, lowest first. A byte past the end counts as 0. Where the eight are there
// they are read without a loop, which compiles to one load.
pub fn eight_at(s: &[u8], at: usize) -> u64
    ensures { result ≡ number 8 at s.now }
{
    if s.len() < WIDEST || s.len() - WIDEST < at {
        return number_at(s, at, WIDEST);
    }
    four_at(s, at) + 0x1_0000_0000 * four_at(s, at + 4)
}

// The number of four bytes that are all there.
// Stays a sum: `from_le_bytes` takes an array, and no function on the way to a stop has one (`tools/check-arrays`).
fn four_at(s: &[u8], at: usize) -> u64
    requires { at + 4 ≤ length s.now }
    ensures { result ≡ number 4 at s.now }
{
    (s[at] as u64)
        + 0x100 * (s[at + 1] as u64)
        + 0x1_0000 * (s[at + 2] as u64)
        + 0x100_0000 * (s[at + 3] as u64)
}
