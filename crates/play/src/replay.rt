// A store made anew by the changes of a play.
use crate::deed::Deed;
use cipher::transparent::Transparent;
use descent::failure::Failure;
use memory::chip::MemoryChip;
use memory::medium::MemoryMedium;
use rehearsal::keys::{Keys, draws};
use rehearsal::levels::Levels;
use std::alloc::Global;
use storage::state::Store;

// A store in memory.
pub type Small = Store<Transparent, MemoryMedium, MemoryChip>;

// An empty store over an empty medium.
fn empty_store(heap: Global, levels: Levels, medium: MemoryMedium) -> Result<Small, Failure> {
    let chip = MemoryChip::new(heap)?;
    Store::new(heap, Transparent, medium, chip, levels.count())
}

// Makes a change in a store, with the keys that it drew.
pub fn change(heap: Global, levels: Levels, store: &mut Small, deed: &Deed) -> Result<(), Failure> {
    let count = draws(levels.count(), &deed.content);
    let mut keys = Keys::draw(heap, deed.drawn, count)?;
    match &deed.content {
        Some(content) => store.put(deed.place, content, &mut keys.0),
        None => store.take_out(deed.place, &mut keys.0),
    }
}

// The store after changes, over a medium that was empty.
pub fn replay(
    heap: Global,
    levels: Levels,
    medium: MemoryMedium,
    deeds: &[Deed],
) -> Result<Small, Failure> {
    let mut store = empty_store(heap, levels, medium)?;
    for deed in deeds {
        // A store is let go by into_devices alone, so no `?` here.
        if let Err(why) = change(heap, levels, &mut store, deed) {
            let _ = store.into_devices();
            return Err(why);
        }
    }
    Ok(store)
}
