// The store's state.
ghost use Rattle.std.specs.Prelude.{◌≡◌, ◌≤◌, vec_len};

use crate::seat::Seat;
use crate::work::Work;
use descent::source::Source;
use index::Index;

// Places, over a medium and a chip. The index says where the medium has what; no key is in memory but the chip's.
pub struct Store<S, M, C> {
    pub(crate) source: Source<S, M>,
    pub(crate) seat: Seat<C>,
    pub(crate) index: Index,
    pub(crate) levels: u32,
    // How many bytes the medium has.
    pub(crate) end: u64,
    pub(crate) work: Work,
    // The records of the change under way.
    pub(crate) records: Vec<u8>,
    ghost some: { 1 ≤ levels },
    ghost few: { levels ≤ 19 },
    ghost wide: { vec_len work.siblings ≡ levels },
}
