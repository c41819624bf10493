// How a line of notices is named.
ghost use Rattle.std.specs.Prelude.{Some};
ghost use Rattle.office_commands.specs.Closings.{entry_text};
ghost use Rattle.road_time.specs.Text.{notice_text};

use road_time::Notice;
use std::fmt;

/// A line of notices: there is none, it is no notice, or it is this one.
#[derive(Clone, Copy, Debug, PartialEq)]
pub enum EntryText {
    Nothing,
    Malformed,
    Read(Notice),
}

/// A notice, to be printed as its text.
#[derive(Clone, Copy)]
struct Printed(Notice);

impl fmt::Display for Printed {
    ghost output = { λ printed. Some (notice_text printed.0) };

    fn fmt<W: fmt::Write>(&self, f: &mut fmt::Formatter<W>) -> fmt::Result {
        match self.0 {
            Notice::Toll {
                vid,
                time,
                lav,
                toll,
            } => write!(f, "0,{vid},{time},{lav},{toll}"),
            Notice::Alert { time, vid, seg } => write!(f, "1,{time},{vid},{seg}"),
            Notice::Balance { time, qid, amount } => write!(f, "2,{time},{qid},{amount}"),
            Notice::Spent { time, qid, amount } => write!(f, "3,{time},{qid},{amount}"),
        }
    }
}

impl fmt::Display for EntryText {
    ghost output = { λ entry. Some (entry_text entry) };

    fn fmt<W: fmt::Write>(&self, f: &mut fmt::Formatter<W>) -> fmt::Result {
        match *self {
            EntryText::Nothing => f.write_str("none"),
            EntryText::Malformed => f.write_str("malformed"),
            EntryText::Read(notice) => {
                let printed = Printed(notice);
                write!(f, "{printed}")
            }
        }
    }
}
