//! Readers that give few bytes at a time, that fail, or whose file is said to have another length.
use std::alloc::Global;
use std::fs::{Metadata, OpenFile};
use std::io;
use std::io::{Error, ErrorKind, Read};
use tokei_real::reading::{all_into, all_of, all_within, head_of};

/// A reader that gives a text, two bytes a read at most, and has then ended or fails.
#[derive(Clone, Copy)]
pub struct Slow<'a> {
    pub left: &'a [u8],
    pub fails: bool,
}

impl Read for Slow<'_> {
    fn read(&mut self, buffer: &mut [u8]) -> io::Result<usize> {
        if self.fails && self.left.is_empty() {
            return Err(Error::from(ErrorKind::Other));
        }
        let n = buffer.len().min(self.left.len()).min(2);
        let (given, left) = self.left.split_at(n);
        buffer[..n].copy_from_slice(given);
        self.left = left;
        Ok(n)
    }
}

/// Whether a file of five bytes is read that is said to have so many; or, where its reader fails,
/// neither the whole file nor its head is.
fn is_read(alloc: Global, said: usize, fails: bool) -> bool {
    let reader = Slow {
        left: b"abcde",
        fails,
    };
    match all_of(alloc, reader, said) {
        Ok(bytes) => !fails && bytes.as_slice() == b"abcde".as_slice(),
        Err(_) => fails && head_of(alloc, reader).is_err(),
    }
}

#[test]
fn files_of_another_length(rt: HostRuntime) {
    for said in [0, 1, 5, 6, 100, 70_000] {
        let is_read = is_read(rt.alloc(), said, false) && is_read(rt.alloc(), said, true);
        assert!(rt; is_read, "{said}");
    }
}

/// Whether a file of five bytes is read where that many are the most, or else is refused.
fn is_kept_within(alloc: Global, most: u64) -> bool {
    let reader = Slow {
        left: b"abcde",
        fails: false,
    };
    match all_within(alloc, reader, 5, most) {
        Ok(bytes) => most >= 5 && bytes.as_slice() == b"abcde".as_slice(),
        Err(e) => most < 5 && e.kind() == ErrorKind::FileTooLarge,
    }
}

#[test]
fn more_bytes_than_the_bound(rt: HostRuntime) {
    for most in [0, 4, 5, 6, u64::MAX] {
        assert!(rt; is_kept_within(rt.alloc(), most), "{most}");
    }
}

/// An open file that is said to have so many bytes, of which each read that gives some is
/// interrupted before it.
#[derive(Clone, Copy)]
struct Changed<'a> {
    inner: Slow<'a>,
    said: u64,
    interrupts: bool,
}

impl Read for Changed<'_> {
    fn read(&mut self, buffer: &mut [u8]) -> io::Result<usize> {
        self.interrupts = !self.interrupts;
        if self.interrupts {
            return Err(Error::from(ErrorKind::Interrupted));
        }
        self.inner.read(buffer)
    }
}

impl OpenFile for Changed<'_> {
    fn metadata(&self) -> io::Result<Metadata> {
        Ok(Metadata::of_file(self.said))
    }

    fn set_len(&self, _size: u64) -> io::Result<()> {
        Err(Error::from(ErrorKind::Unsupported))
    }

    fn sync_all(&self) -> io::Result<()> {
        Err(Error::from(ErrorKind::Unsupported))
    }

    fn sync_data(&self) -> io::Result<()> {
        Err(Error::from(ErrorKind::Unsupported))
    }
}

/// How many bytes the memory has in which another file stood, and how many the file is said to
/// have.
static ROOMS: [(usize, u64); 9] = [
    (0, 5),
    (1, 0),
    (2, 5),
    (4, 1),
    (5, 5),
    (5, 70_000),
    (6, 5),
    (7, 0),
    (100, 5),
];

/// Whether a file of five bytes is read into room of that many, or its reader's fault is answered.
fn is_read_into(alloc: Global, length: usize, said: u64, fails: bool) -> bool {
    let reader = Changed {
        inner: Slow {
            left: b"abcde",
            fails,
        },
        said,
        interrupts: false,
    };
    match vec![in alloc; b'x'; length] {
        Ok(room) => match all_into(reader, room) {
            Ok(content) => !fails && content.as_slice() == b"abcde".as_slice(),
            Err(_) => fails,
        },
        Err(_) => false,
    }
}

// Room that is too small, as large as the file, and larger; a file that grew or shrank since its
// length was asked.
#[test]
fn files_into_room_of_another(rt: HostRuntime) {
    for (length, said) in ROOMS {
        let is_read = is_read_into(rt.alloc(), length, said, false)
            && is_read_into(rt.alloc(), length, said, true);
        assert!(rt; is_read, "{length}, {said}");
    }
}
