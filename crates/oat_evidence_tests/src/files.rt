use oat_world::{Files, LoadFault, RealFiles};
use std::alloc::Allocator;
use std::fs::{Metadata, OpenFile, OpenOptions};
use std::io::{ErrorKind, Read, Seek, SeekFrom, Write};
use std::test::Fail;
use std::{env, fs, io, process, rt};

fn unsupported() -> io::Error {
    io::Error::from(ErrorKind::Unsupported)
}

/// Gives one byte a read, and an error at the read of the number `broken`.
#[derive(Drop)]
struct Broken {
    reads: u8,
    broken: u8,
}

impl Read for Broken {
    fn read(&mut self, buf: &mut [u8]) -> io::Result<usize> {
        let number = self.reads;
        self.reads = self.reads.saturating_add(1);
        if number == self.broken {
            return Err(io::Error::from(ErrorKind::Interrupted));
        }
        match (b"abc".get(usize::from(number)), buf.first_mut()) {
            (Some(byte), Some(place)) => {
                *place = *byte;
                Ok(1)
            }
            _ => Ok(0),
        }
    }
}

impl Write for Broken {
    fn write(&mut self, _buf: &[u8]) -> io::Result<usize> {
        Err(unsupported())
    }

    fn flush(&mut self) -> io::Result<()> {
        Err(unsupported())
    }
}

impl Seek for Broken {
    fn seek(&mut self, _to: SeekFrom) -> io::Result<u64> {
        Err(unsupported())
    }
}

impl OpenFile for Broken {
    fn metadata(&self) -> io::Result<Metadata> {
        Err(unsupported())
    }

    fn set_len(&self, _size: u64) -> io::Result<()> {
        Err(unsupported())
    }

    fn sync_all(&self) -> io::Result<()> {
        Err(unsupported())
    }

    fn sync_data(&self) -> io::Result<()> {
        Err(unsupported())
    }
}

/// Files with three bytes each, of which the read of this number fails.
#[derive(Drop)]
struct BrokenAt(u8);

impl rt::Files for BrokenAt {
    type File = Broken;

    type Dir = Broken;

    fn open_file(&self, _how: &OpenOptions, _path: &str) -> io::Result<Broken> {
        Ok(Broken {
            reads: 0,
            broken: self.0,
        })
    }

    fn open_dir(&self, _path: &str) -> io::Result<Broken> {
        Err(unsupported())
    }

    fn metadata(&self, _path: &str) -> io::Result<Metadata> {
        Err(unsupported())
    }

    fn symlink_metadata(&self, _path: &str) -> io::Result<Metadata> {
        Err(unsupported())
    }

    fn copy(&self, _from: &str, _to: &str) -> io::Result<u64> {
        Err(unsupported())
    }

    fn rename(&self, _from: &str, _to: &str) -> io::Result<()> {
        Err(unsupported())
    }

    fn remove_file(&self, _path: &str) -> io::Result<()> {
        Err(unsupported())
    }

    fn create_dir(&self, _path: &str) -> io::Result<()> {
        Err(unsupported())
    }

    fn remove_dir(&self, _path: &str) -> io::Result<()> {
        Err(unsupported())
    }

    fn remove_dir_all<B: Allocator>(&self, _alloc: B, _path: &str) -> io::Result<()> {
        Err(unsupported())
    }
}

#[test]
fn files_are_loaded_whole_or_not_at_all(rt: HostRuntime) -> Result<(), Fail> {
    let alloc = rt.alloc();
    // The number of the read that fails, the limit, and what comes of it.
    for (broken, limit, loaded) in [
        (9, 3, b"whole".as_slice()),
        (9, 2, b"too long".as_slice()),
        (2, 3, b"failed".as_slice()),
        (3, 3, b"failed".as_slice()),
    ] {
        let outside = BrokenAt(broken);
        let found = match RealFiles::new(&outside).load(alloc, "abc", limit).err() {
            None => b"whole".as_slice(),
            Some(LoadFault::TooLong) => b"too long".as_slice(),
            Some(LoadFault::Failed) => b"failed".as_slice(),
            Some(LoadFault::Memory) => b"memory".as_slice(),
        };
        assert!(rt; found == loaded, "at {broken}");
    }
    let id = process::id(rt.process());
    let name = format!(in alloc; "oat_world_{id}")?;
    let path = env::temp_dir(&rt)?.join(alloc, name.as_str())?;
    let text = vec![in alloc; 7u8; 5000]?;
    fs::write(&rt, path.as_str(), text.as_slice())?;
    let mut files = RealFiles::new(&rt);
    let whole = files.load(alloc, path.as_str(), 5000).ok();
    let above = files.load(alloc, path.as_str(), 4999).err();
    fs::remove_file(&rt, path.as_str())?;
    let absent = files.load(alloc, path.as_str(), 5000).err();
    assert!(rt; whole.ok_or("no bytes")? == text);
    assert!(rt; matches!(above, Some(LoadFault::TooLong)));
    assert!(rt; matches!(absent, Some(LoadFault::Failed)));
    Ok(())
}
