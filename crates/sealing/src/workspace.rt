// The working memory of sealing and opening.
use chacha20::stream::Stream;
use poly1305::Poly1305;

// Stream blocks, the one-time key and the accumulator of the mark. All of it is secret, so its owner holds it on the heap and lends it, and it is zeros whenever no call is under way, as the public calls say: of the type it would not hold in the middle of one.
#[derive(Drop)]
pub struct Workspace {
    pub(crate) stream: Stream,
    pub(crate) mark: Poly1305,
    pub(crate) block: [u8; 64],
    pub(crate) once: [u8; 32],
}
