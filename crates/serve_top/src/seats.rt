// Ears in acceptors, each with a reader, and out of them.
ghost use Rattle.std.specs.Prelude.{◌≡◌, ◌≤◌, [], map, length, vec_len, vec_capacity};

use crate::desk_crew::DeskCrew;
use crate::ears::Ears;
use serve_loops::{Acceptor, Acceptors};

/// An acceptor for each ear, with a reader of its own beside what the keeper is now, in their order. There is to be room
/// for them.
pub fn seat<N: Drop, K, W, V: Drop, C: DeskCrew<K, W, V, Q, R>, R, Q: Drop>(
    room: Vec<Acceptor<N, Q>>,
    ears: Ears<N>,
    readers: Vec<V>,
    keeper: &K,
) -> Acceptors<N, Q>
    requires empty { room.items ≡ [] }
    requires none { vec_len room ≡ 0 }
    requires room { length ears ≤ vec_capacity room }
    requires readers { vec_len readers ≡ length ears }
    ensures { map (λ acceptor. acceptor.listener) result ≡ ears }
{
    let mut acceptors = room;
    let mut readers = readers;
    for listener in ears.into_vec() {
        let Some(reader) = readers.pop() else {
            unreachable!()
        };
        acceptors.push_reserved(Acceptor {
            listener,
            reader: C::seat(keeper, reader),
            failed: false,
        });
    }
    Acceptors::from_vec(acceptors)
}

/// The ears of acceptors, in their order. There is to be room for them.
pub fn rise<N: Drop, Q: Drop>(room: Vec<N>, acceptors: Acceptors<N, Q>) -> Ears<N>
    requires empty { room.items ≡ [] }
    requires none { vec_len room ≡ 0 }
    requires room { length acceptors ≤ vec_capacity room }
    ensures { result ≡ map (λ acceptor. acceptor.listener) acceptors }
{
    let mut ears = room;
    for acceptor in acceptors.into_vec() {
        let Acceptor {
            listener,
            reader: _,
            failed: _,
        } = acceptor;
        ears.push_reserved(listener);
    }
    Ears::from_vec(ears)
}
