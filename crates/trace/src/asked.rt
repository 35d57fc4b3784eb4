// What was asked of a medium, with what it was asked for.
#[derive(Clone, Copy)]
pub(crate) enum Asked<'a> {
    Appended(&'a [u8]),
    Synced,
    Cut(u64),
    Got(u64, &'a [u8]),
}
