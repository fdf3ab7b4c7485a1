use super::*;
use std::io::{ErrorKind, Read, Write};
use std::rt::HostRuntime;
use std::test::Fail;
use std::{env, fs, io, process};

// Gives a byte at a time, and fails once before the byte at `fault`.
#[derive(Drop)]
struct Pieces<'a> {
    bytes: &'a [u8],
    at: usize,
    fault: Option<usize>,
}

impl Read for Pieces<'_> {
    fn read(&mut self, buffer: &mut [u8]) -> io::Result<usize> {
        if self.fault == Some(self.at) {
            self.fault = None;
            return Err(io::Error::from(ErrorKind::BrokenPipe));
        }
        match (self.bytes.get(self.at), buffer.first_mut()) {
            (Some(byte), Some(place)) => {
                *place = *byte;
                self.at = self.at.saturating_add(1);
                Ok(1)
            }
            _ => Ok(0),
        }
    }
}

// Takes three bytes at most in one call, and fails where `left` calls have been made.
#[derive(Drop)]
struct Breaking {
    taken: Vec<u8>,
    left: usize,
}

impl Write for Breaking {
    fn write(&mut self, bytes: &[u8]) -> io::Result<usize> {
        if self.left == 0 {
            return Err(io::Error::from(ErrorKind::BrokenPipe));
        }
        self.left -= 1;
        let piece = &bytes[..bytes.len().min(3)];
        self.taken.extend_from_slice(piece)?;
        Ok(piece.len())
    }

    fn flush(&mut self) -> io::Result<()> {
        Ok(())
    }
}

#[test]
fn source_over_a_reader_goes_on_after_a_fault(rt: HostRuntime) {
    let mut source = StdSource::new(Pieces {
        bytes: b"abc",
        at: 0,
        fault: Some(2),
    });
    let mut buffer = [0; 4];
    for (count, first, faults) in [
        (Ok(1), b'a', 0),
        (Ok(1), b'b', 0),
        (Err(Failed), b'b', 1),
        (Ok(1), b'c', 1),
        (Ok(0), b'c', 1),
    ] {
        assert_eq!(rt; source.read(&mut buffer), count);
        assert_eq!(rt; (buffer[0], source.faults), (first, faults));
    }
}

#[test]
fn sink_over_a_writer_tells_a_fault(rt: HostRuntime) -> Result<(), Fail> {
    let alloc = rt.alloc();
    for (left, want, taken, faults) in [
        (3, Ok(()), b"0123456".as_slice(), 0),
        (2, Err(WriteFault), b"012345", 1),
        (0, Err(WriteFault), b"", 1),
    ] {
        let mut sink = StdSink::new(Breaking {
            taken: Vec::new(alloc),
            left,
        });
        assert_eq!(rt; write_whole(&mut sink, b"0123456"), want);
        assert_eq!(rt; sink.writer.taken.as_slice(), taken);
        assert_eq!(rt; sink.faults, faults);
    }
    Ok(())
}

#[test]
fn files_of_the_system(rt: HostRuntime) -> Result<(), Fail> {
    let alloc = rt.alloc();
    let place = format!(in alloc; "umem-base-test-{}", process::id(rt.process()))?;
    let path = env::temp_dir(&rt)?.join(alloc, place.as_str())?;
    let name = Text::from_slice(alloc, path.as_path().as_str().as_bytes())?;
    let folder = Text::from_slice(alloc, b"/")?;
    let mut files = DiskFolder::new(&rt);

    let missing = read_file(alloc, &mut files, &name, 9).err();
    assert_eq!(rt; missing, Some(ReadFile::Missing));

    let mut whole = files.create(&name).is_ok();
    for piece in [b"0123".as_slice(), b"", b"45"] {
        if let OpenFile::Written(_) = &files.opened {
            whole = whole && files.write(piece) == Ok(piece.len());
        }
    }
    assert!(rt; whole);
    let long = read_file(alloc, &mut files, &name, 5).err();
    assert_eq!(rt; long, Some(ReadFile::TooLong));
    match read_file(alloc, &mut files, &name, 6) {
        Ok(bytes) => assert_eq!(rt; bytes.as_slice(), b"012345".as_slice()),
        Err(fault) => assert_eq!(rt; Some(fault), None),
    }
    assert_eq!(rt; (files.read_faults, files.write_faults), (0, 0));

    // Names that can't be opened are faults and not missing: one through a file, and one that is no UTF-8.
    let mut through = Text::from_slice(alloc, name.as_slice())?;
    through.push_slice(b"/x")?;
    let fault = read_file(alloc, &mut files, &through, 9).err();
    assert_eq!(rt; fault, Some(ReadFile::ReadFault));
    let fault = read_file(alloc, &mut files, &Text::from_slice(alloc, b"\xff")?, 9).err();
    assert_eq!(rt; fault, Some(ReadFile::ReadFault));
    fs::remove_file(&rt, path.as_path())?;
    assert_eq!(rt; (files.read_faults, files.write_faults), (2, 0));

    // A folder in place of a file.
    let fault = read_file(alloc, &mut files, &folder, 9).err();
    assert_eq!(rt; fault, Some(ReadFile::ReadFault));
    assert_eq!(rt; files.create(&folder), Err(Failed));
    assert_eq!(rt; (files.read_faults, files.write_faults), (3, 1));
    Ok(())
}
