// A board that has a name, and its ends.
ghost use Rattle.std.specs.Prelude.{◌≡◌, ◌⊎◌};
ghost use Rattle.serve_board.specs.Passes.{StartsWith};

use crate::board_history::BoardHistory;
use crate::live::Live;
use crate::naming::BoardNaming;
use crate::reader::BoardReader;
use crate::told::Told;
use crate::watch::Watch;
use crate::writer::BoardWriter;
use std::marker::{Model, PhantomData};
use std::sync::Wait;

/// The history of a board of this name that is to be made.
#[derive(Drop)]
pub struct NamedHistory<J: BoardNaming> {
    history: BoardHistory,
    of: PhantomData<J>,
    ghost named: { history ≡ J.board },
}

impl BoardHistory {
    /// It has a name now.
    pub fn named<J: BoardNaming>(self) -> NamedHistory<J>
        requires { self ≡ J.board }
    {
        NamedHistory {
            history: self,
            of: PhantomData,
        }
    }
}

impl<J: BoardNaming> NamedHistory<J> {
    pub(crate) fn into_history(self) -> BoardHistory
        ensures { result ≡ J.board }
    {
        let NamedHistory { history, of: _ } = self;
        history
    }
}

/// A reader of the board of this name. Contracts see it as a reader.
#[derive(Drop)]
pub struct NamedReader<J: BoardNaming> {
    reader: BoardReader,
    of: PhantomData<J>,
}

impl<J: BoardNaming> Model for NamedReader<J> {
    ghost use Rattle.std.specs.Prelude.{◌≡◌};
    ghost use Rattle.serve_board.specs.Passes.{Pass, pass_code};

    ghost Value = { Pass };

    ghost coded = { pass_code };

    ghost view = { λ r. r.reader };

    ghost invariant = { λ r. r.reader.board ≡ J.board };
}

impl<J: BoardNaming> NamedReader<J> {
    pub(crate) fn new(reader: BoardReader) -> Self
        requires { reader.board ≡ J.board }
        ensures { result ≡ reader }
    {
        NamedReader {
            reader,
            of: PhantomData,
        }
    }

    /// It is told what is published on the board of its name.
    pub fn learn(&mut self, told: Told)
        requires { told.board ≡ J.board }
        ensures board { self.new.board ≡ self.old.board }
        ensures had { StartsWith self.new.seen self.old.seen }
        ensures told { StartsWith self.new.seen told.all }
        ensures one { (self.new.seen ≡ self.old.seen) ⊎ (self.new.seen ≡ told.all) }
    {
        self.reader.learn(told);
    }

    /// It, as a reader of some board.
    pub fn plain(&self) -> &BoardReader
        ensures same { result.now ≡ self.now }
        ensures named { result.now.board ≡ J.board }
    {
        &self.reader
    }
}

impl<J: BoardNaming> Watch for NamedReader<J> {
    ghost pass = { λ reader. reader };

    fn balance(&mut self, vid: u32) -> Option<Live> {
        match self.reader.balance(vid) {
            Some(live) => Some(live),
            None => None,
        }
    }

    fn total(&mut self) -> Option<Live> {
        match self.reader.total() {
            Some(live) => Some(live),
            None => None,
        }
    }
}

/// The writer of the board of this name.
#[derive(Drop)]
pub struct NamedWriter<J: BoardNaming, R: Wait + Drop> {
    pub(crate) writer: BoardWriter<R>,
    pub(crate) of: PhantomData<J>,
    ghost named: { writer.board ≡ J.board },
}

impl<J: BoardNaming, R: Wait + Drop> NamedWriter<J, R> {
    /// It, as a writer of some board.
    pub fn into_writer(self) -> BoardWriter<R>
        ensures { result.board ≡ J.board }
    {
        let NamedWriter { writer, of: _ } = self;
        writer
    }
}
