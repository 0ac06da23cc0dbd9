// Mends a word: reads a record and a word from standard input, and writes the report or the refusal to standard output.
#![tactic(auto)]

ghost use Rattle.std.specs.Prelude.{◌≤◌, length, IfOk};

use std::io;
use std::io::Read;

// Reads until `room` is full or the input ends, and answers how many bytes came.
fn read_full(input: &mut impl Read, room: &mut [u8]) -> io::Result<usize>
    ensures { IfOk result (λ read. read ≤ length room.new) }
{
    let mut done = 0;
    while done < room.len() {
        let read = input.read(&mut room[done..])?;
        if read == 0 {
            break;
        }
        done += read;
    }
    Ok(done)
}

fn main(rt: HostRuntime) -> io::Result<()> {
    // room for the longest input that is not refused, and one byte more, to know that more came
    let mut input = [0u8; 65537];
    let read = read_full(&mut rt.stdin(), &mut input)?;
    let mut output = receiver::no_text();
    let size = receiver::put_text(&mut output, &input[..read]);
    rt.write_all(&output[..size])
}
