// The fields of a command.
ghost use Rattle.std.specs.Prelude.{◌≡◌, Some};
ghost use Rattle.fields.specs.Names.{name_of};

use std::fmt;

// A field, under the name that a complaint gives it.
#[derive(Clone, Copy, PartialEq, Eq, Debug)]
pub enum Field {
    Key,
    Nonce,
    Marked,
    Content,
    Sealed,
    Counter,
    Once,
    Message,
    Places,
    Place,
    Bytes,
    Records,
}

impl Field {
    pub fn name(self) -> &'static str
        ensures { result.now ≡ name_of self }
    {
        match self {
            Field::Key => "KEY",
            Field::Nonce => "NONCE",
            Field::Marked => "MARKED",
            Field::Content => "CONTENT",
            Field::Sealed => "SEALED",
            Field::Counter => "COUNTER",
            Field::Once => "ONCE",
            Field::Message => "MESSAGE",
            Field::Places => "PLACES",
            Field::Place => "PLACE",
            Field::Bytes => "BYTES",
            Field::Records => "RECORDS",
        }
    }
}

impl fmt::Display for Field {
    ghost output = { λ field. Some (name_of field) };

    fn fmt<W: fmt::Write>(&self, f: &mut fmt::Formatter<W>) -> fmt::Result {
        f.write_str(self.name())
    }
}
