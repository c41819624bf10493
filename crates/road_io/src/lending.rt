// Links whose outward direction can be taken out of them.
ghost use Rattle.std.specs.Prelude.{◌≡◌, ◌≤◌, ◌<◌, None, true, IfSome};
ghost use Rattle.road_io.specs.Faults.{Rose};

use crate::link::Link;
use crate::sink::Sink;

/// A link whose outward direction can be taken out of it and put back, so that it is read while that is written.
/// `lends` is whether it ever gives it.
pub trait TwoWay: Link {
    ghost use Rattle.std.specs.Prelude.{Bool};

    type Out: Sink + Drop;

    ghost lends: { Bool };

    /// Takes out where its bytes go, or gives none where there is no second handle; then all is as it was.
    fn outward(&mut self) -> Option<Self::Out>
        ensures left { Self.Link.left self.new ≡ Self.Link.left self.old }
        ensures plan { Self.Link.plan self.new ≡ Self.Link.plan self.old }
        ensures faults { Self.Link.faults self.new ≡ Self.Link.faults self.old }
        ensures written { IfSome result (λ o. Self.Out.written o ≡ Self.Link.written self.old) }
        ensures room { IfSome result (λ o. Self.Out.room o ≡ Self.Link.room self.old) }
        ensures faultless { IfSome result (λ o. Self.Out.faults o ≡ 0) }
        ensures lends { IfSome result (λ o. lends ≡ true) }
        ensures unwritten { result ≡ None → Self.Link.written self.new ≡ Self.Link.written self.old }
        ensures room_kept { result ≡ None → Self.Link.room self.new ≡ Self.Link.room self.old };

    /// Puts back what was taken out: what was written there was written to the link, and its faults count here. A link
    /// that never gives it drops what comes.
    fn put_back(&mut self, out: Self::Out)
        ensures left { Self.Link.left self.new ≡ Self.Link.left self.old }
        ensures plan { Self.Link.plan self.new ≡ Self.Link.plan self.old }
        ensures written { lends ≡ true → Self.Link.written self.new ≡ Self.Out.written out }
        ensures room { lends ≡ true → Self.Link.room self.new ≡ Self.Out.room out }
        ensures later { Self.Link.faults self.old ≤ Self.Link.faults self.new }
        ensures cause { lends ≡ true → 0 < Self.Out.faults out
            → Rose (Self.Link.faults self.old) (Self.Link.faults self.new) };
}
