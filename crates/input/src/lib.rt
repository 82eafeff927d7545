// Input into lent bytes, as both programs read it.
#![tactic(auto)]

ghost use Rattle.std.specs.Prelude.{◌≤◌, length, take};
ghost use Rattle.std.specs.Io.KnownBytes.{Consumes};

use std::io::Read;

// Reads until the buffer is full, the input ends or a read fails, and returns how many bytes stand at the front.
pub fn read_full<R: Read>(reader: &mut R, buffer: &mut [u8]) -> usize
    ensures bound { result ≤ length buffer.new }
    ensures bytes { Consumes (R.remaining reader.old) (R.remaining reader.new) (take result buffer.new) }
{
    let mut done = 0;
    // A while: the step is what one read gives, not one byte.
    while done < buffer.len() {
        match reader.read(&mut buffer[done..]) {
            Ok(count) if count > 0 => done += count,
            _ => break,
        }
    }
    done
}
