// The real outside: files and the standard output, each with a count of its faults. They tell nothing of content, so
// what the proofs say of them is only that a fault has its cause in them. The operating system's calls are trusted.
ghost use Rattle.std.specs.Prelude.{◌≡◌, None};

use std::fs::File;
use std::io::{ErrorKind, Read, Write};
use xc_base::{Failed, Sink, SinkFail, Source};

/// A file that is opened at its first read. One that can't be opened, and no file at all, fail at each read. A read
/// that a signal cut off is made again.
#[derive(Drop)]
pub(crate) struct FileSource<'a> {
    rt: &'a HostRuntime,
    path: Option<&'a str>,
    file: Option<File>,
    faults: u64,
}

impl<'a> FileSource<'a> {
    /// The source of the file of this path, or of none. It has not failed yet, and does not tell its bytes.
    pub(crate) fn new(rt: &'a HostRuntime, path: Option<&'a str>) -> FileSource<'a>
        ensures left { ⟦<FileSource<'a> as Source>⟧.left result ≡ None }
        ensures faults { ⟦<FileSource<'a> as Source>⟧.faults result ≡ 0 }
    {
        FileSource {
            rt,
            path,
            file: None,
            faults: 0,
        }
    }
}

// The file of the path.
fn open(rt: &HostRuntime, path: Option<&str>) -> Option<File> {
    match path {
        Some(path) => File::open(rt, path).ok(),
        None => None,
    }
}

impl<'a> Source for FileSource<'a> {
    ghost left = { λ _. None };

    ghost faults = { λ s. s.faults };

    fn read(&mut self, buf: &mut [u8]) -> Result<usize, Failed> {
        if self.file.is_none() {
            self.file = open(self.rt, self.path);
        }
        if let Some(file) = &mut self.file {
            for _ in 0..u64::MAX {
                match file.read(buf) {
                    Ok(count) => return Ok(count),
                    Err(error) if error.kind() == ErrorKind::Interrupted => {}
                    Err(_) => break,
                }
            }
        }
        self.faults = self.faults.saturating_add(1);
        Err(Failed)
    }
}

/// The standard output. A write that a signal cut off is made again, and one that takes nothing is a fault.
#[derive(Drop)]
pub(crate) struct StdSink<W: Write> {
    writer: W,
    faults: u64,
}

impl<W: Write> StdSink<W> {
    /// The sink of a writer. It has not failed yet, and does not tell what it took.
    pub(crate) fn new(writer: W) -> StdSink<W>
        ensures written { ⟦<StdSink<W> as Sink>⟧.written result ≡ None }
        ensures faults { ⟦<StdSink<W> as Sink>⟧.faults result ≡ 0 }
    {
        StdSink { writer, faults: 0 }
    }
}

impl<W: Write> Sink for StdSink<W> {
    ghost written = { λ _. None };

    ghost faults = { λ s. s.faults };

    fn write(&mut self, buf: &[u8]) -> Result<usize, SinkFail> {
        let writer = &mut self.writer;
        for _ in 0..u64::MAX {
            match writer.write(buf) {
                Ok(count) if count > 0 || buf.is_empty() => return Ok(count),
                Ok(_) => break,
                Err(error) if error.kind() == ErrorKind::Interrupted => {}
                Err(_) => break,
            }
        }
        self.faults = self.faults.saturating_add(1);
        Err(SinkFail::Failed)
    }
}

#[cfg(test)]
mod tests {
    use super::*;
    use std::io;
    use std::test::Fail;
    use xc_base::write_all;

    // Takes one byte a call, is interrupted at every other one, and fails once it took so many.
    #[derive(Drop)]
    struct Choppy {
        taken: Vec<u8>,
        most: usize,
        interrupted: bool,
    }

    impl Write for Choppy {
        fn write(&mut self, buf: &[u8]) -> io::Result<usize> {
            self.interrupted = !self.interrupted;
            if self.interrupted {
                return Err(io::Error::from(ErrorKind::Interrupted));
            }
            if self.taken.len() >= self.most {
                return Err(io::Error::from(ErrorKind::BrokenPipe));
            }
            let len = buf.len().min(1);
            self.taken.extend_from_slice(&buf[..len])?;
            Ok(len)
        }

        fn flush(&mut self) -> io::Result<()> {
            Ok(())
        }
    }

    #[test]
    fn a_writer_of_one_byte_a_call_takes_all_or_counts_a_fault(
        rt: HostRuntime,
    ) -> Result<(), Fail> {
        let text = b"polled 0 1\n".as_slice();
        for most in 0..12usize {
            let mut sink = StdSink::new(Choppy {
                taken: Vec::new(rt.alloc()),
                most,
                interrupted: false,
            });
            let is_whole = most >= text.len();
            assert!(rt; write_all(&mut sink, text).is_ok() == is_whole, "{most}");
            let front = &text[..most.min(text.len())];
            assert!(rt; sink.writer.taken.as_slice() == front, "{most}");
            assert!(rt; sink.faults == u64::from(!is_whole), "{most}");
        }
        Ok(())
    }
}
