//! Laws, as the contracts of functions that change nothing.
ghost use Rattle.std.specs.Prelude.{◌≡◌};
ghost use Rattle.serve_board.specs.Laws.{AnswersLaw};
ghost use Rattle.serve_board.specs.Passes.{WasPosted};

use crate::reader::BoardReader;
use crate::writer::BoardWriter;
use std::sync::Wait;

/// What a reader is answered of a day that is being published is the day's account at the mark that the answer names.
pub fn answers_law()
    ensures { AnswersLaw }
{
    day_floor::accounts_laws::live_law();
}

/// What a reader saw was published: what the writer of the same board published, with what it has queued, begins with
/// all that the reader saw or was told of.
pub fn published_law<R: Wait + Drop>(writer: &mut BoardWriter<R>, reader: &BoardReader)
    requires board { reader.now.board ≡ writer.old.board }
    ensures kept { writer.new ≡ writer.old }
    ensures posted { WasPosted writer.old.posted reader.now }
{
    writer.cover(reader);
}
