// Who may stop which machine: a token for each address, held, released, and asked for by a stop.
// Document 01, "Stop desk".
#![tactic(auto)]

mod tokens;

ghost use Rattle.std.specs.Prelude.{◌≡◌, ◌*◌, length, get_or, replicate};
ghost use Rattle.answer.specs.Draft.{written_means};
ghost use Rattle.lease.specs.Lease.{hold, release, stop, answer_of, owns};
ghost use Rattle.lease.specs.Answers.{lease_means, written_length, out_after};
ghost use Rattle.lease.specs.Promises.{TableCall, TableStop, LentCall, LentStop};
ghost use Rattle.lease.specs.Private.{Settles, settled};

use answer::Refusal;
use frame::address;

// A free address has no token.
const FREE: u64 = 0;

// The host's address, from which a stop goes out.
const HOST: u8 = 0x00;

// The contents of a stop, terminate workout: 76 04 13 02 01 02 as a number, lowest byte first.
const TERMINATE: u64 = 0x02_01_02_13_04_76;

const TERMINATE_WIDTH: usize = 6;

// One token for each of 256 addresses, 0 for free (document 01: the desk and its passes).
#[derive(Clone, Copy)]
pub struct LeaseTable {
    pub tokens: [u64; 256],
}

// What a hold or a release is answered, and the table afterwards.
#[derive(Clone, Copy)]
pub struct Leased {
    pub answer: Result<(), Refusal>,
    pub table: LeaseTable,
}

impl LeaseTable {
    // A table on which every address is free.
    pub fn new() -> LeaseTable
        ensures { result.tokens ≡ replicate 256 0 }
    {
        LeaseTable {
            tokens: [FREE; 256],
        }
    }

    // Takes a free address. Refusals 9, 14 and 10.
    pub fn hold(self, address: u32, token: u64) -> Leased
        ensures { TableCall self.tokens (hold address token) (lease_means result.answer)
            result.table.tokens }
    {
        let answer = judge_hold(address, token, self.token(address));
        self.settle(answer, address, token)
    }

    // Frees an address for its holder. Refusals 9 and 11.
    pub fn release(self, address: u32, token: u64) -> Leased
        ensures { TableCall self.tokens (release address token) (lease_means result.answer)
            result.table.tokens }
    {
        let answer = judge_holder(address, token, self.token(address));
        self.settle(answer, address, FREE)
    }

    // Writes the stop frame for the holder, who keeps the address. Refusals 9, 11 and 1.
    pub fn stop(self, address: u32, token: u64, out: &mut [u8]) -> Result<usize, Refusal>
        ensures { TableStop self.tokens address token out.old (written_means result)
            out.new }
    {
        write_stop(address, token, self.token(address), out)
    }

    // The token of an address, 0 where there is none.
    fn token(&self, address: u32) -> u64
        ensures { result ≡ get_or self.now.tokens address 0 }
    {
        self.tokens.get(address as usize).copied().unwrap_or(FREE)
    }

    // The store of hold and of release: an accepted call leaves `token` at the address.
    fn settle(mut self, answer: Result<(), Refusal>, address: u32, token: u64) -> Leased
        requires { Settles address (lease_means answer) }
        ensures { (result.answer ≡ answer)
            × (result.table.tokens ≡ settled (lease_means answer) address token self.tokens) }
    {
        if answer.is_ok() {
            self.tokens[address as usize] = token;
        }
        Leased {
            answer,
            table: self,
        }
    }
}

// As `LeaseTable::hold`, on the bytes of a table. Refusal 18 comes first.
// Stays beside the method, as do the next two calls: lent bytes are what C has (`exports_c::csafe_hold` and the others).
pub fn hold_lent(table: &mut [u8], address: u32, token: u64) -> Result<(), Refusal>
    ensures { LentCall table.old (hold address token) (lease_means result) table.new }
{
    let held = tokens::token_in(table, address)?;
    judge_hold(address, token, held)?;
    tokens::put_token(table, address, token);
    Ok(())
}

// As `LeaseTable::release`, on the bytes of a table. Refusal 18 comes first.
pub fn release_lent(table: &mut [u8], address: u32, token: u64) -> Result<(), Refusal>
    ensures { LentCall table.old (release address token) (lease_means result) table.new }
{
    let held = tokens::token_in(table, address)?;
    judge_holder(address, token, held)?;
    tokens::put_token(table, address, FREE);
    Ok(())
}

// As `LeaseTable::stop`, on the bytes of a table. Refusal 18 comes first.
#[tactic(auto, using(crate::proofs::LeaseLaws::stop_other_length))]
pub fn stop_lent(table: &[u8], address: u32, token: u64, out: &mut [u8]) -> Result<usize, Refusal>
    ensures { LentStop table.now address token out.old (written_means result)
        out.new }
{
    write_stop(address, token, tokens::token_in(table, address)?, out)
}

// Whether a token is the holder's: a free address has no holder.
fn is_holder(token: u64, held: u64) -> bool
    ensures { result ≡ owns token held }
{
    token != FREE && token == held
}

// What hold answers where `held` is the address's token.
// Stay numbers that go together: C calls with each (`exports_c::csafe_hold`), and a refusal names which one is wrong.
#[tactic(auto, unfolding(crate::specs::Lease::answer_of))]
fn judge_hold(address: u32, token: u64, held: u64) -> Result<(), Refusal>
    ensures { lease_means result ≡ answer_of held (hold address token) }
{
    if !address::in_range(address) {
        return Err(Refusal::BadAddress);
    }
    if token == FREE {
        return Err(Refusal::ZeroToken);
    }
    if held != FREE {
        return Err(Refusal::AlreadyHeld);
    }
    Ok(())
}

// What release answers where `held` is the address's token: the holder alone is let through, as to a stop.
#[tactic(auto, unfolding(crate::specs::Lease::answer_of))]
fn judge_holder(address: u32, token: u64, held: u64) -> Result<(), Refusal>
    ensures { lease_means result ≡ answer_of held (release address token) }
{
    if !address::in_range(address) {
        return Err(Refusal::BadAddress);
    }
    if !is_holder(token, held) {
        return Err(Refusal::NotHolder);
    }
    Ok(())
}

// Writes the stop frame where `holder` is the address's token and the caller has it. The frame is within the longest that is
// allowed, so that only room can lack.
fn write_stop(address: u32, token: u64, holder: u64, out: &mut [u8]) -> Result<usize, Refusal>
    ensures result_value { written_means result ≡ written_length (answer_of holder (stop address token (length out.old))) }
    ensures out_after { out.new
        ≡ out_after (answer_of holder (stop address token (length out.old))) out.old }
{
    judge_holder(address, token, holder)?;
    let to = address as u8;
    let written = writer::write_extended_number(to, HOST, TERMINATE, TERMINATE_WIDTH, out);
    written.or(Err(Refusal::NoRoom))
}
