// The addresses of extended frames: document 01, "Frames on the wire". 00 is the host, 01 to FC are machines and
// consoles, FD is the default, FE reserved, FF means all. A frame may carry any of them.
ghost use Rattle.std.specs.Prelude.{◌≡◌};
ghost use Rattle.frame.specs.Address.{in_range};

// The first address of a machine or a console, and the last.
pub const FIRST: u32 = 0x01;

pub const LAST: u32 = 0xFC;

// Whether a number is the address of a machine or a console.
pub fn in_range(address: u32) -> bool
    ensures { result ≡ in_range address }
{
    matches!(address, FIRST..=LAST)
}
