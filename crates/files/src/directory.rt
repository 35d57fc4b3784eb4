// What is at a path.
use std::fs::File;
use std::io;
use std::io::ErrorKind;
use std::path::Path;

// None where there is no such file.
pub(crate) fn if_found<T: Drop>(answer: io::Result<T>) -> io::Result<Option<T>> {
    match answer {
        Ok(found) => Ok(Some(found)),
        Err(why) => {
            if why.kind() == ErrorKind::NotFound {
                return Ok(None);
            }
            Err(why)
        }
    }
}

// Makes what was made or renamed at a path last.
pub(crate) fn sync_above(rt: &HostRuntime, path: &str) -> io::Result<()> {
    let above = Path::new(path).parent().map_or("", |above| above.as_str());
    let directory = File::open(rt, if above.is_empty() { "." } else { above })?;
    directory.sync_all()
}
