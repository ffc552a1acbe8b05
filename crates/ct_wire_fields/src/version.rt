//! The versions of the layout.
ghost use Rattle.std.specs.Prelude.{◌≡◌};
ghost use Rattle.ct_wire_fields.specs.Version.{names_families, names_masters, newest, version_number, version_of};

/// A version of the layout.
#[derive(Clone, Copy, Debug, PartialEq, Eq)]
pub enum Version {
    One,
    Two,
    Three,
}

impl Version {
    /// The version that is written.
    pub fn newest() -> Version
        ensures { result ≡ newest }
    {
        Version::Three
    }

    /// The number that stands for it in a frame.
    pub fn number(self) -> u32
        ensures { result ≡ version_number self }
    {
        match self {
            Version::One => 1,
            Version::Two => 2,
            Version::Three => 3,
        }
    }

    /// The version of this number.
    pub fn of(number: u64) -> Option<Version>
        ensures { result ≡ version_of number }
    {
        if number == 1 {
            Some(Version::One)
        } else if number == 2 {
            Some(Version::Two)
        } else if number == 3 {
            Some(Version::Three)
        } else {
            None
        }
    }

    /// Whether a row names its data master.
    pub fn names_masters(self) -> bool
        ensures { result ≡ names_masters self }
    {
        match self {
            Version::One => false,
            Version::Two | Version::Three => true,
        }
    }

    /// Whether an address names its family.
    pub fn names_families(self) -> bool
        ensures { result ≡ names_families self }
    {
        match self {
            Version::One | Version::Two => false,
            Version::Three => true,
        }
    }
}
