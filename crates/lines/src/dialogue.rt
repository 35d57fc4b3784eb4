// What lasts from line to line, and the answers.
ghost use Rattle.std.specs.Prelude.{◌≡◌, IfOk, is_some};
ghost use Rattle.lines.specs.Answers.{asks};

use fields::faults::Failure;
use fields::writing::written;
use seal_commands::Command;
use seal_tasks::Work;
use std::alloc::{AllocError, Global};
use tree_commands::command::TreeCommand;
use tree_commands::key_tree::KeyTree;
use words::split;

// The working memory is secret, so it is on the heap.
#[derive(Drop)]
pub struct Dialogue<T: KeyTree> {
    heap: Global,
    work: Box<Work>,
    tree: Option<T>,
}

impl<T: KeyTree> Dialogue<T> {
    // No tree was made yet.
    pub fn new(heap: Global) -> Result<Dialogue<T>, AllocError> {
        Ok(Dialogue {
            heap,
            work: Box::new(heap, Work::new())?,
            tree: None,
        })
    }

    // What a command answers.
    fn carried_out(&mut self, word: &[u8], fields: &[&[u8]]) -> Result<String, Failure> {
        if let Some(command) = TreeCommand::parse(self.heap, word, fields)? {
            return command.run(self.heap, &mut self.tree);
        }
        if let Some(answer) = T::answer_own(self.heap, word, fields, &mut self.tree)? {
            return Ok(answer);
        }
        let command = Command::parse(self.heap, word, fields)?;
        let bytes = self.work.run(self.heap, command)?;
        Ok(written(self.heap, &bytes)?)
    }

    // The answer to a line without its line feed; none to a blank line or a comment.
    pub fn answer(&mut self, line: &[u8]) -> Result<Option<String>, AllocError>
        ensures { IfOk result (λ answer. is_some answer ≡ asks line.now) }
    {
        let words = split(self.heap, line)?;
        let Some((word, fields)) = words.split_first() else {
            return Ok(None);
        };
        if word.starts_with(b"#") {
            return Ok(None);
        }
        // Ends as the answer of a session does, with an error of another type.
        let answer = match self.carried_out(word, fields) {
            Ok(text) => text,
            Err(Failure::Malformed(malformed)) => malformed.to_string(self.heap)?,
            Err(Failure::Refused(refusal)) => refusal.to_string(self.heap)?,
            Err(Failure::Memory) => return Err(AllocError),
        };
        Ok(Some(answer))
    }
}
