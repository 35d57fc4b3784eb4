// Answers the lines of standard input, one answer a line, and plays on the store in memory.
#![tactic(auto)]

use lines::answer_lines;
use play::play::Play;
use std::io;
use std::io::BufReader;

fn main(rt: HostRuntime) -> io::Result<()> {
    answer_lines::<Play, _, _>(
        rt.alloc(),
        &mut BufReader::new(rt.alloc(), rt.stdin())?,
        &mut rt.stdout(),
    )
}
