// A change of a play.
#[derive(Drop)]
pub struct Deed {
    pub place: u32,
    // What is put in; none where something is taken out.
    pub content: Option<Vec<u8>>,
    // How many keys were ever drawn before its own.
    pub drawn: u32,
}
