// Answers the lines of standard input, one answer a line.
#![tactic(auto)]

use lines::answer_lines;
use rehearsal::state::Rehearsal;
use std::io;
use std::io::BufReader;

fn main(rt: HostRuntime) -> io::Result<()> {
    answer_lines::<Rehearsal, _, _>(
        rt.alloc(),
        &mut BufReader::new(rt.alloc(), rt.stdin())?,
        &mut rt.stdout(),
    )
}
