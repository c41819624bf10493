// The acceptors of a server in a list, one for each of its loops.
ghost use Rattle.std.specs.Prelude.{◌≡◌};

use crate::acceptor::Acceptor;
use std::alloc::Global;
use std::marker::Model;
use std::mem;

/// The acceptors of a server. Contracts see the list.
#[derive(Drop)]
pub struct Acceptors<N, Q> {
    items: Vec<Acceptor<N, Q>>,
}

impl<N, Q> Model for Acceptors<N, Q> {
    ghost use Rattle.std.specs.Prelude.{List};
    ghost use Rattle.serve_loops.specs.declared.acceptor.Acceptor.{Acceptor as TheAcceptor};

    ghost Value = { List (TheAcceptor N Q) };

    ghost view = { λ l. l.items.items };
}

impl<N, Q> Acceptors<N, Q> {
    pub fn from_vec(items: Vec<Acceptor<N, Q>>) -> Self
        ensures { result ≡ items.items }
    {
        Acceptors { items }
    }

    pub fn into_vec(self) -> Vec<Acceptor<N, Q>>
        ensures { result.items ≡ self }
    {
        let Acceptors { items } = self;
        items
    }

    pub fn items(&self) -> &[Acceptor<N, Q>]
        ensures { result.now ≡ self.now }
    {
        self.items.as_slice()
    }

    /// Takes the acceptors out.
    pub(crate) fn take(&mut self, alloc: Global) -> Vec<Acceptor<N, Q>>
        ensures { result.items ≡ self.old }
    {
        mem::replace(&mut self.items, Vec::new(alloc))
    }
}
