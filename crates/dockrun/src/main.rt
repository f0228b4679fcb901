// Reads a schedule from standard input, runs it on a dock, and prints what each line was answered.
#![tactic(auto)]

use schedule::{MOST_TEXT, run_text};
use std::io;
use std::io::Read;

/// One byte more than a schedule may have, so that a longer one shows.
const ENOUGH: u64 = MOST_TEXT as u64 + 1;

fn main(rt: HostRuntime) -> io::Result<()> {
    let mut text = Vec::new(rt.alloc());
    rt.stdin().take(ENOUGH).read_to_end(&mut text)?;
    let output = run_text(rt.alloc(), text.as_slice())?;
    print!(rt; "{output}")
}
