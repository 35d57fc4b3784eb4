// A play is a list of moves.

#[derive(Clone, Copy)]
pub enum Move {
    // A content is put in a place; the puts of a play are counted from 0 on, and each has a content of its own.
    Put { place: u32 },
    // The power is cut during a put, after so many of its records, before the chip gets its new key.
    PutCut { place: u32, records: u32 },
    // What is in a place is taken out.
    Out { place: u32 },
    // The power is cut during a taking out.
    OutCut { place: u32, records: u32 },
    // Somebody reads the chip.
    Look,
}
