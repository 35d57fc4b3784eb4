// A play also has commands of its own.
use crate::key_tree::KeyTree;
use crate::play_command::PlayCommand;
use fields::faults::Failure;
use play::play::{Outcome, Play};
use rehearsal::levels::Levels;
use std::alloc::{AllocError, Global};

// What became of a change: its records in readable form, or that it stopped.
fn told(heap: Global, play: &Play, outcome: Outcome) -> Result<String, AllocError> {
    match outcome {
        Outcome::Made(root) => play.written(root).to_string(heap),
        Outcome::Stopped(root) => format!(in heap; "stopped: root {root}"),
    }
}

// The calls of a play say of themselves no more than that they are safe and return.
impl KeyTree for Play {
    ghost new_gives = { λ _ _. Unit {0} };

    ghost put_gives = { λ _ _ _ _ _. Unit {0} };

    ghost out_gives = { λ _ _ _ _. Unit {0} };

    ghost last_gives = { λ _ _. Unit {0} };

    fn new(heap: Global, levels: Levels) -> Result<Play, AllocError> {
        Play::new(heap, levels)
    }

    fn put(&mut self, heap: Global, place: u32, content: Vec<u8>) -> Result<String, Failure> {
        let outcome = Play::put(self, place, content)?;
        Ok(told(heap, self, outcome)?)
    }

    fn take_out(&mut self, heap: Global, place: u32) -> Result<String, Failure> {
        let outcome = Play::take_out(self, place)?;
        Ok(told(heap, self, outcome)?)
    }

    fn bytes(&self) -> &[u8] {
        Play::bytes(self)
    }

    fn answer_own(
        heap: Global,
        word: &[u8],
        fields: &[&[u8]],
        play: &mut Option<Play>,
    ) -> Result<Option<String>, Failure> {
        match PlayCommand::parse(word, fields)? {
            Some(command) => Ok(Some(command.run(heap, play)?)),
            None => Ok(None),
        }
    }
}
