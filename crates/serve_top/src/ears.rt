// What a door hears with.
ghost use Rattle.std.specs.Prelude.{◌≡◌};

use std::marker::Model;

/// The ears of a door. Contracts see the list.
#[derive(Drop)]
pub struct Ears<N> {
    items: Vec<N>,
}

impl<N> Model for Ears<N> {
    ghost use Rattle.std.specs.Prelude.{List};

    ghost Value = { List N };

    ghost view = { λ e. e.items.items };
}

impl<N> Ears<N> {
    pub fn from_vec(items: Vec<N>) -> Self
        ensures { result ≡ items.items }
    {
        Ears { items }
    }

    pub fn into_vec(self) -> Vec<N>
        ensures { result.items ≡ self }
    {
        let Ears { items } = self;
        items
    }

    pub fn items(&self) -> &[N]
        ensures { result.now ≡ self.now }
    {
        self.items.as_slice()
    }
}
