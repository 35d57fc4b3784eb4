// A medium on a file.
ghost use Rattle.std.specs.Prelude.{◌≡◌, true, false, [], IfOk};

use crate::directory::sync_above;
use devices::fault::Fault;
use devices::medium::Medium;
use std::fs::{File, OpenOptions};
use std::io;
use std::io::{Read, Seek, SeekFrom, Write};
use trace::trace::Trace;

// Once an append, a sync or a cut failed, nothing says what the file has, so all that is asked later fails.
#[derive(Drop)]
pub struct FileMedium {
    file: File,
    failed: bool,
    trace: Trace,
}

impl FileMedium {
    // The file at a path, which is made where there is none.
    pub fn open(rt: &HostRuntime, path: &str) -> io::Result<FileMedium>
        ensures { IfOk result (λ m. (m.trace.asked ≡ []) × (m.failed ≡ false)) }
    {
        let file = OpenOptions::new()
            .read(true)
            .append(true)
            .create(true)
            .open(rt, path)?;
        sync_above(rt, path)?;
        Ok(FileMedium {
            file,
            failed: false,
            trace: Trace::new(),
        })
    }

    // How many bytes the file has.
    pub fn len(&self) -> Result<u64, Fault> {
        Ok(self.file.metadata()?.len())
    }

    // Does something to the file, unless something failed before.
    fn attempt<F: FnOnce(&mut File) -> io::Result<()>>(&mut self, deed: F) -> Result<(), Fault>
        requires { F.IsAlwaysCallable deed }
        ensures { self.new.trace ≡ self.old.trace }
    {
        // That it failed is noted before the error is handed on, so `?` alone would not do.
        if self.failed || deed(&mut self.file).is_err() {
            self.failed = true;
            return Err(Fault);
        }
        Ok(())
    }
}

fn read(file: &mut File, offset: u64, buffer: &mut [u8]) -> Result<(), Fault> {
    if file.metadata()?.len() < offset {
        return Err(Fault);
    }
    file.seek(SeekFrom::Start(offset))?;
    file.read_exact(buffer)?;
    Ok(())
}

// A file is never made longer by a cut.
fn shorten(file: &File, length: u64) -> io::Result<()> {
    if file.metadata()?.len() <= length {
        return Ok(());
    }
    file.set_len(length)
}

impl Medium for FileMedium {
    ghost log = { λ m. m.trace.asked };

    fn read_at(&mut self, offset: u64, buffer: &mut [u8]) -> Result<(), Fault> {
        if self.failed {
            return Err(Fault);
        }
        read(&mut self.file, offset, buffer)?;
        self.trace = self.trace.got(offset, buffer);
        Ok(())
    }

    fn append(&mut self, bytes: &[u8]) -> Result<(), Fault> {
        self.trace = self.trace.appended(bytes);
        self.attempt(|file| file.write_all(bytes))
    }

    fn sync(&mut self) -> Result<(), Fault> {
        self.attempt(|file| file.sync_all())?;
        self.trace = self.trace.synced();
        Ok(())
    }

    fn cut(&mut self, length: u64) -> Result<(), Fault> {
        self.trace = self.trace.cut(length);
        self.attempt(|file| shorten(file, length))
    }
}
