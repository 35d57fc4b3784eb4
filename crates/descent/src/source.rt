// What is opened from: the way of sealing, and the medium.

#[derive(Drop)]
pub struct Source<S, M> {
    pub cipher: S,
    pub medium: M,
}
