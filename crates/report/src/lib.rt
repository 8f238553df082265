// How both programs read standard input, and print what refuses.
#![tactic(auto)]

ghost use Rattle.std.specs.Prelude.{◌≤◌, length, IfOk};

use answers::Numbered;
use std::io;
use std::io::Read;

// Reads until the buffer is full or the input ends: how many bytes now stand at its front.
pub fn read_input(rt: &impl Input, buffer: &mut [u8]) -> io::Result<usize>
    ensures { IfOk result (λ count. count ≤ length buffer.new) }
{
    let mut reader = rt.reader();
    let mut count = 0;
    while count < buffer.len() {
        let more = reader.read(&mut buffer[count..])?;
        if more == 0 {
            break;
        }
        count += more;
    }
    Ok(count)
}

// A line for what refuses: `refused 2 9` for number 2, place 9.
pub fn print_refusal<E: Numbered + Copy>(rt: &impl Print, refusal: E) -> io::Result<()> {
    let number = refusal.number();
    let place = refusal.place();
    println!(rt; "refused {number} {place}")
}
