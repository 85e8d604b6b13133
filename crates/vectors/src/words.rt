// The words, bytes and numbers of an example.
ghost use Rattle.std.specs.Prelude.{◌≤◌};

use crate::print::first;

// The most bytes that an example gives, and the room for what is written of them.
// Stays the size of an array, here and where something is written: an example asks for no memory, so that it is run
// whatever memory there is.
pub(crate) const ROOM: usize = 4096;

// What stands before the first space, and what stands after it.
pub(crate) fn split_word(text: &[u8]) -> (&[u8], &[u8]) {
    match text.iter().position(|b| *b == b' ') {
        Some(at) => (&text[..at], &text[at + 1..]),
        None => (text, &[]),
    }
}

// The first byte, or 0, and those after it.
pub(crate) fn split_byte(bytes: &[u8]) -> (u8, &[u8]) {
    match bytes {
        [first, rest @ ..] => (*first, rest),
        [] => (0, &[]),
    }
}

// The bytes of two digits each, put first into an output, as many as it has room for. Spaces are passed over, and a last
// digit alone.
pub(crate) fn bytes<'a>(text: &[u8], room: &'a mut [u8]) -> &'a [u8] {
    let mut len: usize = 0;
    let mut digits = text.iter().filter(|b| **b != b' ');
    for place in room.iter_mut() {
        let (Some(high), Some(low)) = (digits.next(), digits.next()) else {
            break;
        };
        *place = byte(&[*high, *low]);
        len = len.wrapping_add(1);
    }
    first(room, len)
}

// The byte whose two digits come first, 0 where there is none.
pub(crate) fn byte(word: &[u8]) -> u8 {
    match word {
        [] => 0,
        [high] => 16 * digit(*high),
        [high, low, ..] => 16 * digit(*high) + digit(*low),
    }
}

// The numbers of the first words, 0 where there are no more.
pub(crate) fn numbers<const N: usize>(text: &[u8]) -> [u64; N] {
    let mut numbers = [0; N];
    for (n, word) in numbers.iter_mut().zip(text.split(|b| *b == b' ')) {
        *n = number(word);
    }
    numbers
}

// The number of a word's decimal digits. One more digit is taken where the number then fits whatever the digit.
pub(crate) fn number(word: &[u8]) -> u64 {
    let mut n: u64 = 0;
    for b in word {
        if n <= (u64::MAX - 15) / 10 {
            n = 10 * n + u64::from(digit(*b));
        }
    }
    n
}

// The lower half of a number. The numbers of an example fit their fields.
pub(crate) fn low(n: u64) -> u32 {
    (n % 0x1_0000_0000) as u32
}

// The value of a hexadecimal digit in upper case.
fn digit(b: u8) -> u8
    ensures { result ≤ 15 }
{
    match b {
        b'0'..=b'9' => b - b'0',
        b'A'..=b'F' => b - b'A' + 10,
        _ => 0,
    }
}
