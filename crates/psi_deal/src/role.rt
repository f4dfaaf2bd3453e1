// The two kinds of deal files.
ghost use Rattle.std.specs.Prelude.{◌≡◌};
ghost use Rattle.psi_deal.specs.Roles.{role_byte, role_size, old_role_size, named_role};

/// The end of a session that a deal file is for.
#[derive(Clone, Copy, Debug, PartialEq, Eq)]
pub enum Role {
    /// The end that learns the result.
    Receiver,
    /// The other end.
    Sender,
}

impl Role {
    /// The byte that names the role in a file.
    pub fn byte(self) -> u8
        ensures { result ≡ role_byte self }
    {
        match self {
            Role::Receiver => 0,
            Role::Sender => 1,
        }
    }

    /// How many bytes each file of the role has.
    pub fn size(self) -> usize
        ensures { result ≡ role_size self }
    {
        match self {
            Role::Receiver => 32_848,
            Role::Sender => 16_528,
        }
    }

    /// How many bytes each file of version 1 of the role has.
    pub fn old_size(self) -> usize
        ensures { result ≡ old_role_size self }
    {
        match self {
            Role::Receiver => 32_847,
            Role::Sender => 16_527,
        }
    }

    /// The role that the sixth byte of a file names: the receiver's where it is 0 or there is none.
    pub fn named(bytes: &[u8]) -> Role
        ensures { result ≡ named_role bytes.now }
    {
        match bytes.get(5) {
            None | Some(0) => Role::Receiver,
            Some(_) => Role::Sender,
        }
    }
}
