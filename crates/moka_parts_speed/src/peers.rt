//! What is timed, and what is tried.

/// What the program is asked for.
#[derive(Clone, Copy)]
pub(crate) enum Peer {
    /// To time a table without a name.
    Parts,
    /// To time a table whose history has a name.
    Named,
    /// To time std's map under one lock.
    Map,
    /// To try the case whose memory may be refused.
    Memory,
    /// To try all cases.
    Cases,
    /// To time all, and to try all cases.
    All,
    /// Nothing.
    Nothing,
}

impl Peer {
    /// The peer of this word; any other is `Nothing`.
    pub(crate) fn of(word: &str) -> Peer {
        match word {
            "parts" => Peer::Parts,
            "named" => Peer::Named,
            "map" => Peer::Map,
            "memory" => Peer::Memory,
            "cases" => Peer::Cases,
            "all" => Peer::All,
            _ => Peer::Nothing,
        }
    }
}
