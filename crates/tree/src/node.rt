// Nodes by their numbers: the root is 1, and nodes 2 n and 2 n + 1 hang on node n.

// The two nodes that hang on one.
#[derive(Clone, Copy, PartialEq, Eq, Debug)]
pub enum Side {
    Even = 0,
    Odd = 1,
}

#[derive(Clone, Copy, PartialEq, Eq, Debug)]
pub struct NodeId {
    pub number: u32,
}
