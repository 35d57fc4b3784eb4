// Commands that every tree has.
ghost use Rattle.tree_commands.specs.Runs.{Ran, LastOf};

use crate::key_tree::KeyTree;
use fields::faults::{Failure, Malformed, Refusal, miscounted};
use fields::field::Field;
use fields::reading::{byte_string, number};
use fields::writing::written;
use rehearsal::levels::Levels;
use rehearsal::readable::Front;
use std::alloc::Global;
use words::numbers::counter;

// A line that is well formed.
#[derive(Drop)]
pub enum TreeCommand {
    Tree { levels: Levels },
    Put { place: u32, content: Vec<u8> },
    Out { place: u32 },
    Bytes,
    Decode { levels: Levels, bytes: Vec<u8> },
}

// The levels of a tree with so many places.
fn levels_of(word: &[u8]) -> Result<Levels, Malformed> {
    let field = Field::Places;
    counter(word)
        .and_then(Levels::of_places)
        .ok_or(Malformed::NotPlaces { field })
}

// A command without fields.
pub(crate) fn nothing(fields: &[&[u8]]) -> Result<(), Failure> {
    match fields {
        [] => Ok(()),
        _ => Err(miscounted(0)),
    }
}

// The one field of a command.
pub(crate) fn place_of(fields: &[&[u8]]) -> Result<u32, Failure> {
    // As one function for every count of fields, the pattern is not covered by the borrow checker.
    let [place] = fields else {
        return Err(miscounted(1));
    };
    number(Field::Place, place)
}

// The bytes of the last change, if any was made.
fn last_bytes<T: KeyTree>(tree: &Option<T>) -> &[u8]
    ensures { LastOf T.last_gives tree.now result.now }
{
    match tree {
        Some(tree) => tree.bytes(),
        None => &[],
    }
}

impl TreeCommand {
    // None where the word is another; else checks the number of fields, then each field from the left.
    pub fn parse(
        heap: Global,
        word: &[u8],
        fields: &[&[u8]],
    ) -> Result<Option<TreeCommand>, Failure> {
        let command = match word {
            b"tree" => TreeCommand::parse_tree(fields)?,
            b"put" => TreeCommand::parse_put(heap, fields)?,
            b"out" => TreeCommand::Out {
                place: place_of(fields)?,
            },
            b"bytes" => {
                nothing(fields)?;
                TreeCommand::Bytes
            }
            b"decode" => TreeCommand::parse_decode(heap, fields)?,
            _ => return Ok(None),
        };
        Ok(Some(command))
    }

    fn parse_tree(fields: &[&[u8]]) -> Result<TreeCommand, Failure> {
        let [places] = fields else {
            return Err(miscounted(1));
        };
        let levels = levels_of(places)?;
        Ok(TreeCommand::Tree { levels })
    }

    fn parse_put(heap: Global, fields: &[&[u8]]) -> Result<TreeCommand, Failure> {
        let [place, content] = fields else {
            return Err(miscounted(2));
        };
        let place = number(Field::Place, place)?;
        let content = byte_string(heap, Field::Content, content)?;
        Ok(TreeCommand::Put { place, content })
    }

    fn parse_decode(heap: Global, fields: &[&[u8]]) -> Result<TreeCommand, Failure> {
        let [places, bytes] = fields else {
            return Err(miscounted(2));
        };
        let levels = levels_of(places)?;
        let bytes = byte_string(heap, Field::Bytes, bytes)?;
        Ok(TreeCommand::Decode { levels, bytes })
    }

    // Carries the command out.
    pub fn run<T: KeyTree>(self, heap: Global, tree: &mut Option<T>) -> Result<String, Failure>
        ensures { Ran T.new_gives T.put_gives T.out_gives T.last_gives self tree.old result tree.new }
    {
        match self {
            TreeCommand::Tree { levels } => {
                *tree = Some(T::new(heap, levels)?);
                Ok(String::from_str(heap, "ok")?)
            }
            TreeCommand::Put { place, content } => {
                let tree = tree.as_mut().ok_or(Refusal::NoTree)?;
                tree.put(heap, place, content)
            }
            TreeCommand::Out { place } => {
                let tree = tree.as_mut().ok_or(Refusal::NoTree)?;
                tree.take_out(heap, place)
            }
            TreeCommand::Bytes => Ok(written(heap, last_bytes(tree))?),
            // The record at the front of a string of bytes.
            TreeCommand::Decode { levels, bytes } => {
                Ok(Front::new(levels, &bytes).to_string(heap)?)
            }
        }
    }
}
