// The link that was opened.

/// Who begins the connection of a link.
#[derive(Clone, Copy, Debug, PartialEq, Eq)]
pub enum Side {
    /// This end connects to the address.
    Connect,
    /// This end waits at the address for one connection.
    Listen,
}

/// How a link was opened: who began the connection, and at which address.
#[derive(Debug, Drop)]
pub struct Opened {
    pub side: Side,
    pub address: String,
}
