// Numbers as text.
ghost use Rattle.std.specs.Prelude.{◌≡◌, ◌+◌, ◌≤◌, ◌<◌, length};
ghost use Rattle.text.specs.Digits.{decimal, hex_digit};
ghost use Rattle.text.specs.Private.{Puts, pair, four};

use crate::buffer::Buffer;

// Stays written by hand: `write!` says what it wrote where it answers `Ok`, and never that it does so, as the clause
// `result_value` of `write_answer` has to know.
#[tactic(auto, using(crate::proofs::DigitLaws::lengths))]
impl Buffer<'_> {
    // The digits before the last four are those of the number divided by 10,000, so nothing is written twice.
    // Stays by four digits: by two, in one function, the listing of short frames takes a fifth longer.
    // Stays two cases: a number of at most eight digits, as most are, is written without a call.
    // Stays a clause of each function here: the room that a number needs is the number's.
    pub(crate) fn put_decimal(&mut self, v: u64)
        requires { self.old.len + length (decimal v) ≤ length self.old.bytes.now }
        ensures { Puts self.old self.new (decimal v) }
    {
        if v < 10000 {
            return self.put_short(v);
        }
        if v < 100000000 {
            self.put_short(v / 10000);
            return self.put_last_four(v % 10000);
        }
        self.put_decimal(v / 10000);
        self.put_last_four(v % 10000);
    }

    // At most four digits.
    fn put_short(&mut self, v: u64)
        requires v_bound { v < 10000 }
        requires room { self.old.len + length (decimal v) ≤ length self.old.bytes.now }
        ensures { Puts self.old self.new (decimal v) }
    {
        if v < 100 {
            return self.put_small(v);
        }
        self.put_small(v / 100);
        self.put_last_two(v % 100);
    }

    // One or two digits.
    fn put_small(&mut self, v: u64)
        requires v_bound { v < 100 }
        requires room { self.old.len + length (decimal v) ≤ length self.old.bytes.now }
        ensures { Puts self.old self.new (decimal v) }
    {
        if v < 10 {
            return self.put(&[digit(v)]);
        }
        self.put_last_two(v);
    }

    // Four digits, also where the first are 0.
    fn put_last_four(&mut self, v: u64)
        requires v_bound { v < 10000 }
        requires room { self.old.len + 4 ≤ length self.old.bytes.now }
        ensures { Puts self.old self.new (four v) }
    {
        let (high, low) = (v / 100, v % 100);
        self.put_four(
            digit(high / 10),
            digit(high % 10),
            digit(low / 10),
            digit(low % 10),
        );
    }

    // Two digits, also where the first is 0.
    fn put_last_two(&mut self, v: u64)
        requires v_bound { v < 100 }
        requires room { self.old.len + 2 ≤ length self.old.bytes.now }
        ensures { Puts self.old self.new (pair v) }
    {
        self.put_two(digit(v / 10), digit(v % 10));
    }
}

fn digit(d: u64) -> u8
    requires { d < 10 }
    ensures { result ≡ 48 + d }
{
    b'0' + d as u8
}

// A hexadecimal digit, upper case.
pub(crate) fn hex_digit(d: u8) -> u8
    requires { d < 16 }
    ensures { result ≡ hex_digit d }
{
    if d < 10 { b'0' + d } else { b'A' - 10 + d }
}
