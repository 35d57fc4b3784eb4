// The records of the medium: their sizes, and what is read from bytes.

// The first bytes of the three kinds.
pub const KEY: u8 = b'K';

pub const CONTENT: u8 = b'C';

pub const OUT: u8 = b'E';

// The bytes of a mark, and those of a key sealed with its mark.
pub const MARK: usize = 16;

pub const SEALED_KEY: usize = 48;

// The bytes of a header, which is the whole of an `Out`; those before what is sealed; and those of a whole `Key`.
pub const HEADER_BYTES: usize = 9;

pub const KEY_FRONT: usize = 13;

pub const CONTENT_FRONT: usize = 11;

pub const KEY_BYTES: usize = KEY_FRONT + SEALED_KEY;

pub const LONGEST_CONTENT: u16 = 4096;

// The highest number that a key can have.
pub const HIGHEST: u32 = 4_294_967_294;

// A record, with the bytes of the medium that it was read from.
#[derive(Clone, Copy, PartialEq, Eq, Debug)]
pub enum Record<'a> {
    Key {
        node: u32,
        number: u32,
        under: u32,
        sealed: &'a [u8],
    },
    Content {
        node: u32,
        number: u32,
        sealed: &'a [u8],
    },
    Out {
        node: u32,
        next: u32,
    },
}

// Why no record stands at the front of a string of bytes.
#[derive(Clone, Copy, PartialEq, Eq, Debug)]
pub enum Undecoded {
    // One ends too early.
    Ends,
    // They have another form.
    Other,
}

// What stands at the front of a string of bytes: a record and the rest.
pub type Decoded<'a> = Result<(Record<'a>, &'a [u8]), Undecoded>;
