use crate::limbs::Limbs;

// A Poly1305 under way: the accumulator, the clamped half of the key, and the half that is added last. The caller holds it in
// its work space; while no message is under way it is zeros.
#[derive(Drop)]
pub struct Poly1305 {
    pub(crate) acc: Limbs,
    pub(crate) r: Limbs,
    pub(crate) s0: u64,
    pub(crate) s1: u64,
}
