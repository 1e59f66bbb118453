// A system some of whose flushes fail.
use real_outside::Lock;
use std::alloc::Allocator;
use std::cell::Cell;
use std::fs::{File, Files, Metadata, OpenFile, OpenOptions};
use std::io::{self, Empty, ErrorKind, Read, Seek, SeekFrom, Write};

/// The system with a number of flushes that succeed; after them each fails.
#[derive(Drop)]
pub struct CountedFlushes<'a> {
    pub host: HostRuntime,
    pub left: &'a Cell<u32>,
}

/// A file of that system.
#[derive(Drop)]
pub struct CountedFile<'a> {
    file: File,
    left: &'a Cell<u32>,
}

impl Read for CountedFile<'_> {
    fn read(&mut self, buf: &mut [u8]) -> io::Result<usize> {
        self.file.read(buf)
    }
}

impl Write for CountedFile<'_> {
    fn write(&mut self, buf: &[u8]) -> io::Result<usize> {
        self.file.write(buf)
    }

    fn flush(&mut self) -> io::Result<()> {
        self.file.flush()
    }
}

impl Seek for CountedFile<'_> {
    fn seek(&mut self, to: SeekFrom) -> io::Result<u64> {
        self.file.seek(to)
    }
}

impl Lock for CountedFile<'_> {
    fn take_lock(&self) -> io::Result<()> {
        self.file.take_lock()
    }
}

impl OpenFile for CountedFile<'_> {
    fn metadata(&self) -> io::Result<Metadata> {
        self.file.metadata()
    }

    fn set_len(&self, size: u64) -> io::Result<()> {
        self.file.set_len(size)
    }

    fn sync_all(&self) -> io::Result<()> {
        let left = self.left.get();
        if left == 0 {
            return Err(io::Error::other("no flush is left"));
        }
        self.left.set(left - 1);
        self.file.sync_all()
    }

    fn sync_data(&self) -> io::Result<()> {
        self.sync_all()
    }
}

impl<'a> Files for CountedFlushes<'a> {
    type File = CountedFile<'a>;

    type Dir = Empty;

    fn open_file(&self, how: &OpenOptions, path: &str) -> io::Result<CountedFile<'a>> {
        Ok(CountedFile {
            file: self.host.open_file(how, path)?,
            left: self.left,
        })
    }

    fn open_dir(&self, _path: &str) -> io::Result<Empty> {
        Err(io::Error::from(ErrorKind::Unsupported))
    }

    fn metadata(&self, path: &str) -> io::Result<Metadata> {
        self.host.metadata(path)
    }

    fn symlink_metadata(&self, path: &str) -> io::Result<Metadata> {
        self.host.symlink_metadata(path)
    }

    fn copy(&self, from: &str, to: &str) -> io::Result<u64> {
        self.host.copy(from, to)
    }

    fn rename(&self, from: &str, to: &str) -> io::Result<()> {
        self.host.rename(from, to)
    }

    fn remove_file(&self, path: &str) -> io::Result<()> {
        self.host.remove_file(path)
    }

    fn create_dir(&self, path: &str) -> io::Result<()> {
        self.host.create_dir(path)
    }

    fn remove_dir(&self, path: &str) -> io::Result<()> {
        self.host.remove_dir(path)
    }

    fn remove_dir_all<B: Allocator>(&self, alloc: B, path: &str) -> io::Result<()> {
        self.host.remove_dir_all(alloc, path)
    }
}
