// A source that is watched while it is read.
ghost use Rattle.day_import.specs.Watching.{both};

use road_io::{Failed, Source};

/// A pipe that is full gives all that is asked but for a part of this size, at most: what was left of its last page.
const PAGE: usize = 4_096;

/// A source that is watched while it is read: whether its last read gave less than a source has that does not wait.
#[derive(Drop)]
pub struct WatchedSource<'a, S: Source> {
    pub source: &'a mut S,
    pub waits: bool,
}

impl<'a, S: Source> Source for WatchedSource<'a, S> {
    ghost left = { λ w. S.left w.source.now };

    ghost faults = { λ w. S.faults w.source.now };

    ghost plan = { λ w. S.plan w.source.now };

    ghost most = { λ w. S.most w.source.now };

    ghost name = { λ w. both (S.name w.source.now) w.source.ghost_name };

    fn read(&mut self, buf: &mut [u8]) -> Result<usize, Failed> {
        match self.source.read(buf) {
            Ok(count) => {
                self.waits = buf.len().saturating_sub(count) > PAGE;
                Ok(count)
            }
            Err(failed) => Err(failed),
        }
    }
}
