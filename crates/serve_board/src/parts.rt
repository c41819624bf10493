// A board's writer and readers.
ghost use Rattle.std.specs.Prelude.{◌≡◌};

use crate::named::{NamedReader, NamedWriter};
use crate::naming::BoardNaming;
use crate::reader::BoardReader;
use crate::writer::BoardWriter;
use std::marker::Model;
use std::sync::Wait;

/// The readers of a board. Contracts see the list.
#[derive(Drop)]
pub struct Readers {
    items: Vec<BoardReader>,
}

impl Model for Readers {
    ghost use Rattle.std.specs.Prelude.{List};
    ghost use Rattle.serve_board.specs.Passes.{Pass};

    ghost Value = { List Pass };

    ghost view = { λ r. r.items.items };
}

impl Readers {
    pub fn from_vec(items: Vec<BoardReader>) -> Self
        ensures { result ≡ items.items }
    {
        Readers { items }
    }

    pub fn into_vec(self) -> Vec<BoardReader>
        ensures { result.items ≡ self }
    {
        let Readers { items } = self;
        items
    }

    pub fn items(&self) -> &[BoardReader]
        ensures { result.now ≡ self.now }
    {
        self.items.as_slice()
    }
}

/// A board.
#[derive(Drop)]
pub struct Board<R: Wait + Drop> {
    pub writer: BoardWriter<R>,
    pub readers: Readers,
}

/// The readers of a board of this name. Contracts see the list.
#[derive(Drop)]
pub struct NamedReaders<J: BoardNaming> {
    items: Vec<NamedReader<J>>,
}

impl<J: BoardNaming> Model for NamedReaders<J> {
    ghost use Rattle.std.specs.Prelude.{List};
    ghost use Rattle.serve_board.specs.Passes.{Pass};

    ghost Value = { List Pass };

    ghost view = { λ r. r.items.items };
}

impl<J: BoardNaming> NamedReaders<J> {
    pub(crate) fn from_vec(items: Vec<NamedReader<J>>) -> Self
        ensures { result ≡ items.items }
    {
        NamedReaders { items }
    }

    pub fn into_vec(self) -> Vec<NamedReader<J>>
        ensures { result.items ≡ self }
    {
        let NamedReaders { items } = self;
        items
    }
}

/// A board of this name.
#[derive(Drop)]
pub struct NamedBoard<J: BoardNaming, R: Wait + Drop> {
    pub writer: NamedWriter<J, R>,
    pub readers: NamedReaders<J>,
}
