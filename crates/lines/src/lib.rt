// The line language: one command a line, one answer a line.
#![tactic(auto)]

pub mod dialogue;

use dialogue::Dialogue;
use std::alloc::Global;
use std::io;
use std::io::{BufRead, Write};
use tree_commands::key_tree::KeyTree;

// The line without its line feed; the last line may lack it.
fn without_feed(line: &[u8]) -> &[u8] {
    line.strip_suffix(b"\n").unwrap_or(line)
}

// Answers each line that has an answer as soon as it is read.
pub fn answer_lines<T: KeyTree, R: BufRead, W: Write>(
    heap: Global,
    input: &mut R,
    output: &mut W,
) -> io::Result<()> {
    let mut dialogue = Dialogue::<T>::new(heap)?;
    let mut line = Vec::new(heap);
    // A loop must have an end, and none is known of the input.
    for _ in 0..u64::MAX {
        line.clear();
        if input.read_until(b'\n', &mut line)? == 0 {
            break;
        }
        if let Some(mut answer) = dialogue.answer(without_feed(&line))? {
            answer.push('\n')?;
            output.write_all(answer.as_bytes())?;
        }
    }
    Ok(())
}
