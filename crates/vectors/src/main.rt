// Replays stored answers of the published Rust: every list goes through the pass, and what comes out must be the Rust's.
// The sample on standard input is, for each list, words of four bytes: wires, bits, records, records left, walked; then the
// records, and those left. `cargo run --release --bin vectors` writes it.
#![tactic(auto)]

mod replay;

ghost use Rattle.std.specs.Prelude.{◌≤◌, IfOk, length};

use std::io;
use std::io::Read;

// Reads until the buffer is full or the input ends, and returns how many bytes it put at the start. `Read` itself goes to the end
// of the input only into a Vec, and there is no heap here.
fn read_full(input: &mut impl Read, buffer: &mut [u8]) -> io::Result<usize>
    ensures { IfOk result (λ n. n ≤ length buffer.new) }
{
    let mut done = 0;
    while done < buffer.len() {
        let n = input.read(&mut buffer[done..])?;
        if n == 0 {
            break;
        }
        done += n;
    }
    Ok(done)
}

fn main(rt: HostRuntime) -> io::Result<()> {
    let mut sample = [0u8; 65536];
    let n = read_full(&mut rt.reader(), &mut sample)?;
    let mut out = [0u8; 1024];
    let mut work = [0u32; 1088];
    let mut journal = [0u8; 1536];
    match replay::replay_all(&sample[..n], &mut out, &mut work, &mut journal) {
        Ok(lists) => println!(rt; "lists as the Rust has them: {lists}"),
        Err(stopped) => println!(rt; "differs, or the sample is broken: list {}", stopped.list),
    }
}
