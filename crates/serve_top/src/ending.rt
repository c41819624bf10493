// How a run of the server ends.
ghost use Rattle.std.specs.Prelude.{◌≡◌};
ghost use Rattle.serve_top.specs.Endings.{status_of};

/// How a run of the server ends.
#[derive(Clone, Copy, Debug, PartialEq, Eq)]
pub enum ServerEnd {
    /// All connections were accepted.
    Served,
    /// The words are of no stated form.
    Words,
    /// The door was not opened.
    Refused,
    /// A listener failed, or gave up, as no thread could be had for an acceptor.
    EarFault,
    /// Memory ran out.
    NoMemory,
}

impl ServerEnd {
    /// Its exit status.
    pub fn status(self) -> u8
        ensures { result ≡ status_of self }
    {
        match self {
            ServerEnd::Served => 0,
            ServerEnd::Words => 1,
            ServerEnd::Refused => 2,
            ServerEnd::EarFault => 4,
            ServerEnd::NoMemory => 8,
        }
    }
}
