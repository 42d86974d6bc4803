// One stored list.
ghost use Rattle.std.specs.Prelude.{◌≡◌, ◌+◌, ◌≤◌, ◌<◌, IfOk, IfErr, length};
ghost use Rattle.vectors.specs.Turns.{Onward};

use cancel::entry;
use gates::words;

// Why a replay stops: the answer is not the Rust's, or the sample is broken.
#[derive(Clone, Copy, PartialEq, Eq)]
pub enum Unlike {
    Other,
    Broken,
}

// The list at which a replay stopped.
#[derive(Clone, Copy, PartialEq, Eq)]
pub struct Stopped {
    pub list: u64,
}

// Runs the list that stands at a place of the sample, and answers where the next stands. Lists of more than 64 records are
// refused as broken.
fn replay(
    sample: &[u8],
    at: usize,
    out: &mut [u8],
    work: &mut [u32],
    journal: &mut [u8],
) -> Result<usize, Unlike>
    requires { (at < length sample.now) × (length sample.now ≤ 65536) × (1024 ≤ length out.old) }
    ensures { Onward at (length sample.now) result }
{
    let n = sample.len();
    if n - at < 20 {
        return Err(Unlike::Broken);
    }
    let wires = words::word_at(sample, at) as usize;
    let bits = words::word_at(sample, at + 4) as usize;
    let gates = words::word_at(sample, at + 8) as usize;
    let left = words::word_at(sample, at + 12) as usize;
    let walked = words::word_at(sample, at + 16) as u64;
    if 64 < gates {
        return Err(Unlike::Broken);
    }
    if 64 < left {
        return Err(Unlike::Broken);
    }
    let from = at + 20;
    let to = from + 16 * gates;
    let end = to + 16 * left;
    if n < end {
        return Err(Unlike::Broken);
    }
    let Ok(done) = entry::cancel(wires, bits, &sample[from..to], out, work, journal) else {
        return Err(Unlike::Other);
    };
    if (done.left == left) & (done.walked == walked) & (sample[to..end] == out[..16 * left]) {
        Ok(end)
    } else {
        Err(Unlike::Other)
    }
}

// Runs the lists of a sample one after another, up to the first that differs. Answers how many came out as the Rust has them.
pub fn replay_all(
    sample: &[u8],
    out: &mut [u8],
    work: &mut [u32],
    journal: &mut [u8],
) -> Result<u64, Stopped>
    requires { (length sample.now ≤ 65536) × (1024 ≤ length out.old) }
    ensures all { IfOk result (λ lists. lists ≤ length sample.now) }
    ensures stopped { IfErr result (λ s. s.list ≤ length sample.now) }
{
    let mut list: u64 = 0;
    let mut at = 0;
    while at < sample.len() {
        let Ok(next) = replay(sample, at, out, work, journal) else {
            return Err(Stopped { list });
        };
        at = next;
        list += 1;
    }
    Ok(list)
}
