// How many connections are out of the room for which others wait.
ghost use Rattle.std.specs.Prelude.{◌≡◌, ◌≤◌, ◌<◌, ◌+◌, ◌-◌, true, false, None, IsSome, is_some};
ghost use Rattle.serve_room.specs.Outsides.{one_post, one_read};
ghost use Rattle.serve_room.specs.declared.posts.Kind.TheVariants.{Post, Read, Free};

use crate::posts::{Kind, Who};
use crate::turns::Pass;

/// The connections that are out of the room and for which others wait: the pass, unless one of those that post a day has
/// it, how many of those are out, how many that ask for what is kept, and how many of each may be. Of both together one
/// more may be.
#[derive(Drop)]
pub(crate) struct Outside {
    pub(crate) pass: Option<Pass>,
    posts: usize,
    reads: usize,
    most: usize,
}

impl Outside {
    /// None is out.
    pub(crate) fn new(most: usize, pass: Pass) -> Outside
        ensures most { result.most ≡ most }
        ensures posts { result.posts ≡ 0 }
        ensures reads { result.reads ≡ 0 }
        ensures pass { IsSome result.pass }
    {
        Outside {
            pass: Some(pass),
            posts: 0,
            reads: 0,
            most,
        }
    }

    /// Whether one more of those for which others wait may be out at all.
    fn has_room(&self) -> bool
        ensures { result ≡ true → self.now.posts + self.now.reads ≤ self.now.most }
    {
        match self.posts.checked_add(self.reads) {
            Some(out) => out <= self.most,
            None => false,
        }
    }

    /// Whether a connection that posts a day may leave.
    fn lets_post(&self) -> bool
        ensures { result ≡ true → (is_some self.now.pass ≡ true) × (self.now.posts < self.now.most)
            × (self.now.posts + self.now.reads ≤ self.now.most) }
    {
        self.pass.is_some() && self.posts < self.most && self.has_room()
    }

    /// Whether a connection that asks for what is kept may leave.
    fn lets_read(&self) -> bool
        ensures { result ≡ true → (self.now.reads < self.now.most)
            × (self.now.posts + self.now.reads ≤ self.now.most) }
    {
        self.reads < self.most && self.has_room()
    }

    /// Who may leave the room: of those that are to wait no more, one that posts a day while the pass is there, and of
    /// both kinds for which others wait while fewer are out than may be. All others may.
    pub(crate) fn who_leaves(&self) -> Who
        ensures posts { result.posts ≡ true → (is_some self.now.pass ≡ true) × (self.now.posts < self.now.most)
            × (self.now.posts + self.now.reads ≤ self.now.most) }
        ensures reads { result.reads ≡ true → (self.now.reads < self.now.most)
            × (self.now.posts + self.now.reads ≤ self.now.most) }
        ensures free { result.free ≡ true }
        ensures called { result.waiting ≡ false }
        ensures order { result.last ≡ false }
    {
        Who {
            posts: self.lets_post(),
            reads: self.lets_read(),
            free: true,
            waiting: false,
            last: false,
        }
    }

    /// One more of a kind is out. With one that posts a day goes the pass, if that is there.
    pub(crate) fn let_out(&mut self, kind: Kind) -> Option<Pass>
        ensures pass { kind ≡ Post → (result ≡ self.old.pass) × (self.new.pass ≡ None) }
        ensures others { kind ≡ Read → (result ≡ None) × (self.new.pass ≡ self.old.pass) }
        ensures free { kind ≡ Free → (result ≡ None) × (self.new ≡ self.old) }
        ensures posts { self.old.posts < self.old.most → self.new.posts ≡ self.old.posts + one_post kind }
        ensures reads { self.old.reads < self.old.most → self.new.reads ≡ self.old.reads + one_read kind }
        ensures most { self.new.most ≡ self.old.most }
    {
        match kind {
            Kind::Post => {
                self.posts = self.posts.saturating_add(1).min(self.most);
                self.pass.take()
            }
            Kind::Read => {
                self.reads = self.reads.saturating_add(1).min(self.most);
                None
            }
            Kind::Free => None,
        }
    }

    /// So many came back that posted a day, and that asked for what is kept.
    pub(crate) fn take_back(&mut self, posts: usize, reads: usize)
        ensures posts { self.new.posts ≡ self.old.posts - posts }
        ensures reads { self.new.reads ≡ self.old.reads - reads }
        ensures pass { self.new.pass ≡ self.old.pass }
        ensures most { self.new.most ≡ self.old.most }
    {
        self.posts = self.posts.saturating_sub(posts);
        self.reads = self.reads.saturating_sub(reads);
    }

    /// The pass came back.
    pub(crate) fn take_pass(&mut self, pass: Pass)
        ensures pass { IsSome self.new.pass }
        ensures counts { (self.new.posts ≡ self.old.posts) × (self.new.reads ≡ self.old.reads) }
    {
        self.pass = Some(pass);
    }
}
