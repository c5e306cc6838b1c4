ghost use Rattle.std.specs.Prelude.{◌≡◌, IsTrue};
ghost use Rattle.oat_measure.specs.Shelving.{is_due, next_opening};

/// What the windows of a session are opened for, and the number of the present one.
#[derive(Clone, Copy)]
pub struct Opening {
    pub nonce: [u8; 16],
    pub op: u16,
    /// SHA-256 of the image text.
    pub digest: [u8; 32],
    /// The address of the SVC 1 in the operation's Begin group.
    pub begin_at: u64,
    /// The present window's number, where the windows of the session are numbered.
    pub serial: Option<u32>,
    /// How many windows the session has.
    pub calls: u32,
}

impl Opening {
    /// Whether a further window is due behind this one.
    pub fn is_due(&self) -> bool
        ensures { result ≡ is_due self.now self.now.serial }
    {
        match self.serial {
            Some(serial) => u64::from(serial) + 1 < u64::from(self.calls),
            None => false,
        }
    }

    /// The same session's next window.
    pub fn next(&self) -> Opening
        requires { IsTrue (is_due self.now self.now.serial) }
        ensures { result ≡ next_opening self.now }
    {
        let mut next = *self;
        if let Some(serial) = self.serial {
            next.serial = Some(serial + 1);
        }
        next
    }
}
