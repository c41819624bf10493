// The standard streams, files and connections. They tell nothing of what they give or take.
ghost use Rattle.std.specs.Prelude.{None, refl};
ghost use Rattle.road_io.specs.Streams.{with_stream};

use crate::ending::patience;
use crate::ends::TwoEnds;
use crate::late::{LateSource, Opens};
use crate::linking::Linking;
use crate::sink::Writing;
use crate::source::Reading;
use road_time::NoMemory;
use std::alloc::Global;
use std::fs::File;
use std::io::{Stdin, Stdout};
use std::net::{Shutdown, TcpStream};
use std::rt::HostRuntime;

/// Standard input, read in pieces as large as the caller's buffer: `StdSource::new(rt.stdin())`.
pub type StdSource = Reading<Stdin>;

/// Standard output, written at once: `StdSink::new(rt.stdout())`.
pub type StdSink = Writing<Stdout>;

/// The path of a file.
#[derive(Drop)]
pub struct FilePath {
    rt: HostRuntime,
    path: String,
}

impl Opens for FilePath {
    type Opened = File;

    ghost holds = { λ p. None };

    fn open(&self) -> Option<File> {
        std::fs::open(&self.rt, self.path.as_str()).ok()
    }
}

/// A file, opened at its first read. A file that cannot be opened is a counted fault at each read, and not tried again.
pub type FileSource = LateSource<FilePath>;

impl LateSource<FilePath> {
    /// The file at a path, which may not be there.
    pub fn at(alloc: Global, rt: HostRuntime, path: &str) -> Result<FileSource, NoMemory> {
        let path = String::from_str(alloc, path)?;
        Ok(LateSource::new(FilePath { rt, path }))
    }
}

/// The ends of a connection, which are one.
#[derive(Drop)]
pub struct TcpEnds {
    stream: TcpStream,
}

impl TwoEnds for TcpEnds {
    type In = TcpStream;

    type Out = TcpStream;

    ghost inward = { λ e. e.stream };

    ghost outward = { λ e. e.stream };

    ghost with_inward = { with_stream };

    ghost with_outward = { with_stream };

    ghost in_is = { λ s end. refl };

    ghost in_keeps = { λ s end. refl };

    ghost out_is = { λ s end. refl };

    ghost out_keeps = { λ s end. refl };

    fn inward(&mut self) -> &mut TcpStream {
        &mut self.stream
    }

    fn outward(&mut self) -> &mut TcpStream {
        &mut self.stream
    }

    fn shut(&mut self) -> bool {
        self.stream.shutdown(Shutdown::Write).is_ok()
            && self.stream.set_read_timeout(Some(patience())).is_ok()
    }
}

/// A connection; a write of no byte is a fault.
pub type StreamLink = Linking<TcpEnds>;

impl Linking<TcpEnds> {
    pub fn new(rt: HostRuntime, stream: TcpStream) -> StreamLink {
        Linking::over(rt, TcpEnds { stream })
    }
}
