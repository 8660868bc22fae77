// Standard input, read to its end or until the lent bytes are full. What a read brings is the system's to say, and no contract
// speaks of it.
ghost use Rattle.std.specs.Prelude.{◌≤◌, length, IfOk};

use std::io;
use std::io::Read;

// How many bytes were read. Where a read failed before the end, there is none.
pub fn read_input(from: &mut impl Read, bytes: &mut [u8]) -> io::Result<usize>
    ensures { IfOk result (λ n. n ≤ length bytes.new) }
{
    let mut length = 0;
    // Stays: a read may bring fewer bytes than fit, so no range counts the turns.
    while length < bytes.len() {
        let more = from.read(&mut bytes[length..])?;
        if more == 0 {
            break;
        }
        length += more;
    }
    Ok(length)
}
