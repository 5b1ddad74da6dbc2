ghost use Rattle.std.specs.Prelude.{◌≡◌, ◌<◌, List, ℕ, length, false, IfOk};
ghost use Rattle.std.specs.Io.{ReadsAtMost, WritesAtMost};
ghost use Rattle.std.specs.Io.KnownBytes.{ReadConsumes, WriteAppends};
ghost use Rattle.outside_io.specs.Causes.{HasCause, IsStillUnlessFailed};
ghost use Rattle.outside_io.specs.FilePlace.{file_open_faults, file_read_faults, file_write_faults, file_state};
ghost use Rattle.outside_io.specs.SayOut.{file_of, file_source_state, say_faults, say_state, writer_of};

use crate::named::NamedValues;
use crate::{Begin, IoFault, Place, Sink, Source};
use acct_types::{NoMemory, Text};
use std::alloc::Global;
use std::fs::OpenOptions;
use std::io::{Read, Write};
use std::rt::Files;

/// A file that is read. It tells nothing.
#[derive(Drop)]
pub struct FileSource<F: Read + Drop> {
    file: F,
    faults: u64,
}

impl<F: Read + Drop> FileSource<F> {
    pub fn new(file: F) -> FileSource<F>
        ensures { (file_source_state result).faults ≡ 0 }
    {
        FileSource { file, faults: 0 }
    }
}

impl<F: Read + Drop> Source for FileSource<F> {
    ghost state = { file_source_state };

    /// Where the reader of std tells what it has left: that many octets of it were taken, none where it answers that
    /// none are left or that it failed.
    fn read(&mut self, buf: &mut [u8]) -> Result<usize, IoFault>
        ensures bound { ReadsAtMost result buf.new }
        ensures cause { HasCause (file_source_state self.old).faults (file_source_state self.new).faults result }
        ensures bytes { ReadConsumes (F.remaining (file_of self.old)) (F.remaining (file_of self.new)) result buf.new }
    {
        match self.file.read(buf) {
            Ok(count) => Ok(count),
            Err(_) => {
                self.faults = self.faults.saturating_add(1);
                Err(IoFault::Failed)
            }
        }
    }
}

/// A writer of std, as a file or standard output. It tells nothing.
#[derive(Drop)]
pub struct SayOut<W: Write + Drop> {
    writer: W,
    faults: u64,
}

impl<W: Write + Drop> SayOut<W> {
    pub fn new(writer: W) -> SayOut<W>
        ensures { say_faults result ≡ 0 }
    {
        SayOut { writer, faults: 0 }
    }
}

impl<W: Write + Drop> Sink for SayOut<W> {
    ghost state = { say_state };

    /// Where the writer of std tells what it holds: it has as many octets of the piece as the answer says behind those
    /// that it had, none after an error.
    #[tactic(auto, using(crate::proofs::Octets::nothing_kept))]
    fn write(&mut self, piece: &[u8]) -> Result<usize, IoFault>
        ensures bound { WritesAtMost result piece.now }
        ensures progress { IfOk result (λ n. 0 < length piece.now → 0 < n) }
        ensures cause { HasCause (say_faults self.old) (say_faults self.new) result }
        ensures still { IsStillUnlessFailed (say_faults self.old) (say_faults self.new) result }
        ensures bytes { WriteAppends (W.contents (writer_of self.old)) (W.contents (writer_of self.new)) result piece.now }
    {
        match self.writer.write(piece) {
            Ok(count) if count > 0 || piece.is_empty() => Ok(count),
            _ => {
                self.faults = self.faults.saturating_add(1);
                Err(IoFault::Failed)
            }
        }
    }
}

/// The system's files, by path. A name that isn't UTF-8 can't be opened.
#[derive(Drop)]
pub struct FilePlace<R: Files + Drop> {
    rt: R,
    open_faults: NamedValues<u64>,
    read_faults: NamedValues<u64>,
    write_faults: NamedValues<u64>,
}

impl<R: Files + Drop> FilePlace<R> {
    /// The files of the runtime, none of which has failed yet. Takes no memory.
    pub fn new(alloc: Global, rt: R) -> FilePlace<R>
        ensures open_faults { (name : List ℕ) → file_open_faults result name ≡ 0 }
        ensures read_faults { (name : List ℕ) → file_read_faults result name ≡ 0 }
        ensures write_faults { (name : List ℕ) → file_write_faults result name ≡ 0 }
    {
        FilePlace {
            rt,
            open_faults: NamedValues::new(alloc),
            read_faults: NamedValues::new(alloc),
            write_faults: NamedValues::new(alloc),
        }
    }

    fn open(&self, how: &OpenOptions, name: &Text) -> Option<R::File> {
        let path = str::from_utf8(name.as_slice()).ok()?;
        how.open(&self.rt, path).ok()
    }
}

impl<R: Files + Drop> Place for FilePlace<R>
where
    R::File: Send,
{
    type In = FileSource<R::File>;

    type Out = SayOut<R::File>;

    ghost tells = { false };

    ghost state = { file_state };

    fn open_in(&mut self, name: &Text) -> Result<FileSource<R::File>, IoFault> {
        let mut how = OpenOptions::new();
        how.read(true);
        match self.open(&how, name) {
            Some(file) => Ok(FileSource::new(file)),
            None => {
                self.open_faults.raise(name)?;
                Err(IoFault::Failed)
            }
        }
    }

    fn close_in(&mut self, name: &Text, input: FileSource<R::File>) -> Result<(), NoMemory> {
        let FileSource { file: _, faults } = input;
        self.read_faults.raise_where(name, faults)
    }

    fn open_out(&mut self, name: &Text, begin: Begin) -> Result<SayOut<R::File>, IoFault> {
        let mut how = OpenOptions::new();
        how.create(true);
        match begin {
            Begin::Append => how.append(true),
            Begin::Anew => how.write(true).truncate(true),
        };
        match self.open(&how, name) {
            Some(file) => Ok(SayOut::new(file)),
            None => {
                self.open_faults.raise(name)?;
                Err(IoFault::Failed)
            }
        }
    }

    fn close_out(&mut self, name: &Text, _: Begin, out: SayOut<R::File>) -> Result<(), IoFault> {
        self.write_faults.raise_where(name, out.faults)?;
        Ok(())
    }
}
