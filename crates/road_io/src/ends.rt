// A stream by its two ends.
ghost use Rattle.std.specs.Prelude.{◌≡◌};
ghost use Rattle.std.specs.Borrow.{sem, Lends};

use std::io::{Read, Write};

/// A stream by its two ends, which may be one: bytes come in at `inward` and go out at `outward`. `with_inward` is the
/// stream once its inward end became another, and the same for the outward one.
pub trait TwoEnds {
    type In: Read;

    type Out: Write;

    ghost inward: { Self → Self.In };

    ghost outward: { Self → Self.Out };

    ghost with_inward: { Self → Self.In → Self };

    ghost with_outward: { Self → Self.Out → Self };

    /// The end that is read.
    fn inward(&mut self) -> &mut Self::In
        ensures* writes_back { sem 𝓛 (Lends Self.row Self.In.row self.entry result (with_inward self.old)) }
        ensures value { result.now ≡ inward self.old };

    /// The end that is written.
    fn outward(&mut self) -> &mut Self::Out
        ensures* writes_back { sem 𝓛 (Lends Self.row Self.Out.row self.entry result (with_outward self.old)) }
        ensures value { result.now ≡ outward self.old };

    /// Ends what is written, and says whether what still comes can be read with patience.
    fn shut(&mut self) -> bool
        ensures { self.new ≡ self.old };

    ghost in_is: { (s : Self) (end : Self.In)
        → Self.In.remaining (inward (with_inward s end)) ≡ Self.In.remaining end };

    ghost in_keeps: { (s : Self) (end : Self.In)
        → Self.Out.contents (outward (with_inward s end)) ≡ Self.Out.contents (outward s) };

    ghost out_is: { (s : Self) (end : Self.Out)
        → Self.Out.contents (outward (with_outward s end)) ≡ Self.Out.contents end };

    ghost out_keeps: { (s : Self) (end : Self.Out)
        → Self.In.remaining (inward (with_outward s end)) ≡ Self.In.remaining (inward s) };
}
