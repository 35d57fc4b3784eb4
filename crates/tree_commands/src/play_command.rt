// Commands that only a play has.
use crate::command::{nothing, place_of};
use fields::faults::{Failure, Refusal, miscounted};
use fields::field::Field;
use fields::reading::number;
use fields::writing::written;
use play::play::{Play, Stop};
use std::alloc::Global;

// A line that is well formed.
#[derive(Clone, Copy)]
pub(crate) enum PlayCommand {
    Read { place: u32 },
    Look,
    Stop { stop: Stop },
    Verdicts,
}

// When the power is cut.
fn stop_of(fields: &[&[u8]]) -> Result<Stop, Failure> {
    match fields {
        [b"chip"] => Ok(Stop::Chip),
        [records] => Ok(Stop::Records(number(Field::Records, records)?)),
        _ => Err(miscounted(1)),
    }
}

impl PlayCommand {
    // None where the word is another; else checks the number of fields, then the field.
    pub(crate) fn parse(word: &[u8], fields: &[&[u8]]) -> Result<Option<PlayCommand>, Failure> {
        let command = match word {
            b"read" => PlayCommand::Read {
                place: place_of(fields)?,
            },
            b"look" => {
                nothing(fields)?;
                PlayCommand::Look
            }
            b"stop" => PlayCommand::Stop {
                stop: stop_of(fields)?,
            },
            b"verdicts" => {
                nothing(fields)?;
                PlayCommand::Verdicts
            }
            _ => return Ok(None),
        };
        Ok(Some(command))
    }

    // Carries the command out.
    pub(crate) fn run(self, heap: Global, play: &mut Option<Play>) -> Result<String, Failure> {
        let play = play.as_mut().ok_or(Refusal::NoTree)?;
        match self {
            // What a place holds.
            PlayCommand::Read { place } => Ok(written(heap, &play.read(place)?)?),
            // Somebody reads the chip.
            PlayCommand::Look => {
                let root = play.look()?;
                Ok(format!(in heap; "looked: root {root}")?)
            }
            // The power will be cut during the next change.
            PlayCommand::Stop { stop } => {
                play.stop_next(stop);
                Ok(String::from_str(heap, "stop at the next change")?)
            }
            // What can be opened by the looks.
            PlayCommand::Verdicts => Ok(play.verdicts().to_string(heap)?),
        }
    }
}
