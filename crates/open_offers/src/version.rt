ghost use Rattle.std.specs.Prelude.{◌≡◌};
ghost use Rattle.open_offers.specs.Versions.{version_number, version_of};

/// A version of the ledger's file.
#[derive(Clone, Copy)]
pub enum Version {
    /// Each user has at most one open offer, which is that of his last packet.
    First,
    /// Each user has at most four open offers. The door writes this version.
    Second,
}

impl Version {
    /// The version of a number: 1 the first, and else the second.
    pub fn of_number(number: u16) -> Version
        ensures { result ≡ version_of number }
    {
        match number {
            1 => Version::First,
            _ => Version::Second,
        }
    }

    /// The number of the version.
    pub fn number(self) -> u8
        ensures { result ≡ version_number self }
    {
        match self {
            Version::First => 1,
            Version::Second => 2,
        }
    }
}
