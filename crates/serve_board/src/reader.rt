// A reader of a board.
ghost use Rattle.std.specs.Prelude.{◌≡◌, ◌⊎◌, Some, IfSome, IfNone};
ghost use Rattle.day_floor.specs.Shown.{shown_after};
ghost use Rattle.left_right.specs.Sides.{view};
ghost use Rattle.serve_board.specs.Passes.{Sees, StartsWith, balance_on, total_on, pass_of};

use crate::front::Beginning;
use crate::live::Live;
use crate::page::Page;
use crate::rule::{InOrder, Looks, PageView};
use crate::told::Told;
use left_right::reader::Reader;
use std::marker::Model;

/// Answers from the board, and never waits. Contracts see of which board it is, and the operations that it saw or was
/// told of.
#[derive(Drop)]
pub struct BoardReader {
    reader: Option<Reader<Page, PageView, InOrder>>,
    front: Beginning,
}

impl Model for BoardReader {
    ghost use Rattle.std.specs.Prelude.{◌≡◌, Some};
    ghost use Rattle.std.specs.Option.{option_map};
    ghost use Rattle.serve_board.specs.Passes.{Pass, pass_code, pass_of};

    ghost Value = { Pass };

    ghost coded = { pass_code };

    ghost view = { λ r. pass_of r.front };

    ghost invariant = { λ r. option_map (λ s. s.place.me.0.client) r.reader ≡ Some (Some r.front.book) };
}

impl BoardReader {
    pub(crate) fn new(reader: Reader<Page, PageView, InOrder>, front: Beginning) -> Self
        requires { view reader.place ≡ Some front.book }
        ensures { result ≡ pass_of front }
    {
        BoardReader {
            reader: Some(reader),
            front,
        }
    }

    /// What it saw or was told of.
    pub(crate) fn front(&self) -> &Beginning
        ensures { self.now ≡ pass_of result.now }
    {
        &self.front
    }

    /// From now on this reader's answers are of operations that begin with all that was told. It asks that both are of
    /// one board.
    /// It keeps the longer one of what it had and what is told, which begins with the other.
    pub fn learn(&mut self, told: Told)
        requires { told.board ≡ self.old.board }
        ensures board { self.new.board ≡ self.old.board }
        ensures had { StartsWith self.new.seen self.old.seen }
        ensures told { StartsWith self.new.seen told.all }
        ensures one { (self.new.seen ≡ self.old.seen) ⊎ (self.new.seen ≡ told.all) }
    {
        let front = told.into_front();
        if !self.front.has(&front) {
            self.front = front;
        }
    }

    /// A vehicle's account. `None` where the board is closed, or shows less than this reader knows, which no board
    /// does.
    #[tactic(auto, using(crate::proofs::ShowLaws::balance_is))]
    pub fn balance(&mut self, vid: u32) -> Option<Live>
        ensures sees { IfSome result (λ _. Sees self.old self.new) }
        ensures live { IfSome result (λ live. live ≡ balance_on (shown_after self.new.seen) vid) }
        ensures none { IfNone result (self.new ≡ self.old) }
    {
        let Some(reader) = self.reader.take() else {
            unreachable!()
        };
        match reader.enter_as::<Looks>() {
            Ok(reading) => {
                let page = reading.get();
                let live = page.shown.balance(vid);
                let front = page.front.again();
                self.reader = Some(reading.leave());
                if !front.has(&self.front) {
                    return None;
                }
                self.front = front;
                Some(live)
            }
            Err(reader) => {
                self.reader = Some(reader);
                None
            }
        }
    }

    /// What all vehicles owe. `None` as for `balance`.
    pub fn total(&mut self) -> Option<Live>
        ensures sees { IfSome result (λ _. Sees self.old self.new) }
        ensures live { IfSome result (λ live. live ≡ total_on (shown_after self.new.seen)) }
        ensures none { IfNone result (self.new ≡ self.old) }
    {
        let Some(reader) = self.reader.take() else {
            unreachable!()
        };
        match reader.enter_as::<Looks>() {
            Ok(reading) => {
                let page = reading.get();
                let live = page.shown.total();
                let front = page.front.again();
                self.reader = Some(reading.leave());
                if !front.has(&self.front) {
                    return None;
                }
                self.front = front;
                Some(live)
            }
            Err(reader) => {
                self.reader = Some(reader);
                None
            }
        }
    }
}
