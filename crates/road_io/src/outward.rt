// Where the bytes of a link go out, apart from it.
ghost use Rattle.std.specs.Prelude.{◌≡◌};

use crate::sink::Sink;
use crate::source::Failed;

/// Where the bytes of a link go out, apart from it, with a count of the writes that failed since it was given.
#[derive(Drop)]
pub struct Outward<O> {
    pub sink: O,
    pub faults: u64,
}

impl<O> Outward<O> {
    /// No write has failed.
    pub fn to(sink: O) -> Outward<O>
        ensures sink { result.sink ≡ sink }
        ensures faultless { result.faults ≡ 0 }
    {
        Outward { sink, faults: 0 }
    }
}

impl<O: Sink> Sink for Outward<O> {
    ghost written = { λ o. O.written o.sink };

    ghost room = { λ o. O.room o.sink };

    ghost faults = { λ o. o.faults };

    ghost most = { λ o. O.most o.sink };

    fn write(&mut self, piece: &[u8]) -> Result<usize, Failed> {
        match self.sink.write(piece) {
            Ok(count) => Ok(count),
            Err(failed) => {
                self.faults = self.faults.saturating_add(1);
                Err(failed)
            }
        }
    }
}
