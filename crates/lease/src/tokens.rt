// The token of an address in the bytes of a table: eight for each of 256 addresses, lowest first.
ghost use Rattle.std.specs.Prelude.{◌≡◌, ◌+◌, ◌*◌, ◌≤◌, length};
ghost use Rattle.numbers.specs.Number.{put};
ghost use Rattle.lease.specs.Private.{TokenIn};

use answer::Refusal;
use frame::address;

// The bytes of a token, and of a table.
const WIDTH: usize = 8;

const TABLE_BYTES: usize = 2048;

// The token of a machine's address, 0 for any other address, whose call is refused whatever its bytes are. Refusal 18.
pub(crate) fn token_in(bytes: &[u8], address: u32) -> Result<u64, Refusal>
    ensures { TokenIn bytes.now address result }
{
    if bytes.len() != TABLE_BYTES {
        return Err(Refusal::BadTable);
    }
    if !address::in_range(address) {
        return Ok(0);
    }
    Ok(numbers::eight_at(bytes, WIDTH * address as usize))
}

// Writes a token into the bytes of an address.
pub(crate) fn put_token(bytes: &mut [u8], address: u32, token: u64)
    requires { 8 * address + 8 ≤ length bytes.old }
    ensures { bytes.new ≡ put 8 (8 * address) token bytes.old }
{
    let at = WIDTH * address as usize;
    bytes[at..at + WIDTH].copy_from_slice(&token.to_le_bytes());
}
