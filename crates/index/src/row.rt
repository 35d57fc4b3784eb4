// The rows of an index.

// Where a node's key is sealed: the number of the key, the number of the key that it is sealed under, and where the sealed bytes begin.
#[derive(Clone, Copy, PartialEq, Eq, Debug)]
pub struct KeyRow {
    pub number: u32,
    pub under: u32,
    pub offset: u64,
}

// Where a place's content is sealed: the number of the key that it is sealed under, its length, and where the sealed bytes begin.
#[derive(Clone, Copy, PartialEq, Eq, Debug)]
pub struct ContentRow {
    pub number: u32,
    pub length: u16,
    pub offset: u64,
}
