// Definitions and laws on lists that the layers above share: a choice by a test, a test on every element, a list put
// into another from an index on, a part brought to the front, zeros from an index on, the first element that passes a
// test, and a machine run on a list of calls.
#![tactic(auto)]

ghost use Rattle.std.specs.Prelude.{◌≡◌, ◌+◌, ◌%◌, ◌≤◌, ◌<◌, length, drop};
ghost use Rattle.lists.specs.Choice.{pick, within, none_of, count_before, in_blocks};
ghost use Rattle.lists.specs.Splice.{splice, copied, shifted, cleared};

// How many bytes are tested together, and how many of those that are left.
const BLOCK: usize = 32;

const SMALL_BLOCK: usize = 8;

// Fewer bytes than these are copied one after the other.
const FEW: usize = 8;

// 1 for a byte between two others, both included, else 0.
pub fn mark(b: u8, low: u8, high: u8) -> u8
    ensures { result ≡ pick (within low high b) 1 0 }
{
    u8::from(low <= b && b <= high)
}

// Whether no byte lies between two values, both included. The loop has no branch on the bytes.
// Stay two bounds, here and below: an inclusive range also holds whether it was run through.
pub fn none_within(s: &[u8], low: u8, high: u8) -> bool
    ensures { result ≡ none_of (within low high) s.now }
{
    let mut seen: u8 = 0;
    for b in s {
        seen |= mark(*b, low, high);
    }
    seen == 0
}

// How many bytes stand before the first that lies between two values, both included. The first byte is tested by itself,
// because it often is the one. Whole blocks without one are passed over next, then small ones, because a block is tested
// without a branch for each byte.
pub fn count_before(s: &[u8], low: u8, high: u8) -> usize
    ensures { result ≡ count_before (within low high) s.now }
{
    if s.is_empty() || mark(s[0], low, high) == 1 {
        return 0;
    }
    let in_blocks = pass_blocks(s, low, high, 0, BLOCK);
    let passed = pass_blocks(s, low, high, in_blocks, SMALL_BLOCK);
    passed + first_within(&s[passed..], low, high)
}

// The same, one byte after the other.
fn first_within(s: &[u8], low: u8, high: u8) -> usize
    ensures { result ≡ count_before (within low high) s.now }
{
    for (i, b) in s.iter().enumerate() {
        if mark(*b, low, high) == 1 {
            return i;
        }
    }
    s.len()
}

// How many bytes there are in the whole blocks of 32 before the first byte that lies between two values, both included.
pub fn blocks_before(s: &[u8], low: u8, high: u8) -> usize
    ensures value { result ≡ in_blocks (count_before (within low high) s.now) }
    ensures upper_bound { result ≤ length s.now }
    ensures s_value { count_before (within low high) s.now
        ≡ result + count_before (within low high) (drop result s.now) }
{
    pass_blocks(s, low, high, 0, BLOCK)
}

// Copies a slice into another from an index on, where it fits.
// Stays beside the library's `copy_from_slice`: the clause is total, and that one asks for lengths that agree.
pub fn copy(s: &[u8], out: &mut [u8], at: usize)
    ensures { out.new ≡ copied out.old at s.now }
{
    if at <= out.len() && s.len() <= out.len() - at {
        let part = &mut out[at..at + s.len()];
        if s.len() < FEW {
            copy_few(s, part);
        } else {
            part.copy_from_slice(s);
        }
    }
}

// The library's copy is a call, which takes longer than to store a few bytes one after the other.
fn copy_few(s: &[u8], part: &mut [u8])
    requires { length part.old ≡ length s.now }
    ensures { part.new ≡ s.now }
{
    for (i, b) in s.iter().enumerate() {
        part[i] = *b;
    }
}

// Brings `count` bytes that stand after `by` others to the front, where there are so many. Where the distance is known
// the compiler moves many at once.
pub fn shift(s: &mut [u8], by: usize, count: usize)
    ensures { s.new ≡ shifted s.old by count }
{
    if by <= s.len() && count <= s.len() - by {
        s.copy_within(by..by + count, 0);
    }
}

// Sets every byte from an index on to zero.
pub fn clear_from(s: &mut [u8], from: usize)
    ensures { s.new ≡ cleared s.old from }
{
    if from < s.len() {
        s[from..].fill(0);
    }
}

// Passes over whole blocks of a size from an index on, up to which there is none. A block is tested without a branch for
// each byte.
fn pass_blocks(s: &[u8], low: u8, high: u8, from: usize, size: usize) -> usize
    requires size_nonzero { 0 < size }
    requires from_in_bounds { from ≤ length s.now }
    requires s_value { count_before (within low high) s.now ≡ from + count_before (within low high) (drop from s.now) }
    ensures upper_bound { result ≤ length s.now }
    ensures s_value_2 { count_before (within low high) s.now
        ≡ result + count_before (within low high) (drop result s.now) }
    ensures s_bound { count_before (within low high) (drop result s.now) < size }
    ensures size_value { result % size ≡ from % size }
{
    let mut i = from;
    // Stays a loop by index: it ends at the index where no whole block is left, which an iterator of blocks does not tell.
    while size <= s.len() - i {
        if !none_within(&s[i..i + size], low, high) {
            return i;
        }
        i += size;
    }
    i
}
