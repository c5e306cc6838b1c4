ghost use Rattle.std.specs.Prelude.{◌≡◌};
ghost use Rattle.oat_chain.specs.Clash.{bytes_of};

/// A chained message: the begin record of a window, or the chain so far with the address of one more return.
#[derive(Clone, Copy)]
pub enum Message {
    Begin([u8; 50]),
    Link([u8; 40]),
}

impl Message {
    /// What SHA-256 hashes.
    pub fn bytes(&self) -> &[u8]
        ensures { result.now ≡ bytes_of self.now }
    {
        match self {
            Message::Begin(bytes) => bytes,
            Message::Link(bytes) => bytes,
        }
    }
}

/// Two different messages, of a run's returns and of a replay's, at the first place from the ends where these differ.
#[derive(Clone, Copy)]
pub struct Clash {
    pub first: Message,
    pub second: Message,
}
