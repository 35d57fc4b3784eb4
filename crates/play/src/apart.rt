// What a store leaves when it is taken apart.
use crate::replay::Small;
use devices::chip::Chip;
use memory::medium::MemoryMedium;

// The medium, and the number of the key that the chip has.
pub fn taken_apart(store: Small) -> (MemoryMedium, u32) {
    let (medium, seat) = store.into_devices();
    (medium, seat.chip.number())
}
