//! Why a text is no site.

use bac_values::{NoMemory, ObjectId, Text};

/// A section of a site's text.
#[derive(Clone, Copy, Debug, PartialEq, Eq)]
pub enum Section {
    /// The table `device`.
    Device,
    /// The array of tables `class`.
    Class,
    /// The array of tables `destination`.
    Destination,
    /// The array of tables `object`.
    Object,
    /// The array of tables `enrollment`.
    Enrollment,
    /// The array of tables `log`.
    Log,
    /// The array of tables `binding`.
    Binding,
}

/// Where in a site's text something is wrong.
#[derive(Debug, Drop, PartialEq)]
pub struct SitePlace {
    /// The section.
    pub section: Section,
    /// The item of the section, counted from 1, and 0 for the device and for a section as a whole.
    pub item: u32,
    /// The key, and the empty text for an unknown key of more than 256 octets.
    pub key: Text,
}

/// What there is too much of.
#[derive(Clone, Copy, Debug, PartialEq, Eq)]
pub enum Counted {
    /// Items of a section.
    Section(Section),
    /// Records of all logs together.
    Records,
    /// Notifications that one tick may bring.
    Notes,
}

/// Why a text is no site.
#[derive(Debug, Drop, PartialEq)]
pub enum SiteFault {
    /// The text has more than 1,048,576 octets.
    TooLong,
    /// The text is no TOML document in UTF-8.
    NotToml,
    /// There is a key that the item doesn't have.
    Unknown {
        /// Where.
        place: SitePlace,
    },
    /// A key isn't there that the item needs.
    Missing {
        /// Where.
        place: SitePlace,
    },
    /// A key has a value that it can't have, or a section isn't a table or an array of tables.
    BadValue {
        /// Where.
        place: SitePlace,
    },
    /// An identifier is given twice. This is the least one.
    Duplicate {
        /// The identifier.
        object: ObjectId,
    },
    /// A class or an object to which an object refers isn't there, or has the wrong kind. This is the least object that
    /// refers so; a destination refers for its class.
    Dangling {
        /// The object.
        object: ObjectId,
    },
    /// There is too much.
    TooMany {
        /// Of what.
        what: Counted,
    },
    /// Memory was refused.
    NoMemory,
}

impl From<NoMemory> for SiteFault {
    ghost use Rattle.std.specs.Prelude.{◌≡◌};
    ghost use Rattle.site_config.specs.declared.fault.SiteFault.TheVariants as site_faults;

    ghost from_gives = { λ _ fault. fault ≡ site_faults.NoMemory };

    fn from(_refused: NoMemory) -> SiteFault {
        SiteFault::NoMemory
    }
}
