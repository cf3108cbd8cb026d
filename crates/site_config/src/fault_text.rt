//! Faults in text.

use crate::fault::{Counted, SiteFault, SitePlace};
use crate::sections::section_name;
use bac_values::ObjectId;
use script_lines::kind_name;
use std::fmt;

impl fmt::Display for SitePlace {
    ghost use Rattle.std.specs.Prelude.{Some};
    ghost use Rattle.site_config.specs.FaultTexts.{place_text};

    ghost output = { λ place. Some (place_text place) };

    fn fmt<W: fmt::Write>(&self, f: &mut fmt::Formatter<W>) -> fmt::Result {
        let section = section_name(self.section);
        let item = self.item;
        let key = self.key.as_str();
        write!(f, "{section} {item} {key}")
    }
}

/// An object as a status names it.
#[derive(Clone, Copy)]
struct Named {
    object: ObjectId,
}

impl fmt::Display for Named {
    ghost use Rattle.std.specs.Prelude.{Some};
    ghost use Rattle.script_lines.specs.Report.{object_text};

    ghost output = { λ named. Some (object_text named.object) };

    fn fmt<W: fmt::Write>(&self, f: &mut fmt::Formatter<W>) -> fmt::Result {
        let instance = self.object.instance();
        match self.object.kind() {
            Some(kind) => {
                let kind = kind_name(kind);
                write!(f, "{kind}:{instance}")
            }
            None => {
                let number = self.object.number();
                write!(f, "{number}:{instance}")
            }
        }
    }
}

impl fmt::Display for Counted {
    ghost use Rattle.std.specs.Prelude.{Some};
    ghost use Rattle.site_config.specs.FaultTexts.{counted_text};

    ghost output = { λ counted. Some (counted_text counted) };

    fn fmt<W: fmt::Write>(&self, f: &mut fmt::Formatter<W>) -> fmt::Result {
        match self {
            Counted::Section(section) => {
                let section = section_name(*section);
                write!(f, "{section}")
            }
            Counted::Records => write!(f, "records"),
            Counted::Notes => write!(f, "notes"),
        }
    }
}

impl fmt::Display for SiteFault {
    ghost use Rattle.std.specs.Prelude.{Some};
    ghost use Rattle.site_config.specs.FaultTexts.{fault_text};

    ghost output = { λ fault. Some (fault_text fault) };

    fn fmt<W: fmt::Write>(&self, f: &mut fmt::Formatter<W>) -> fmt::Result {
        match self {
            SiteFault::TooLong => write!(f, "site refused: too-long"),
            SiteFault::NotToml => write!(f, "site refused: not-toml"),
            SiteFault::Unknown { place } => write!(f, "site refused: unknown {place}"),
            SiteFault::Missing { place } => write!(f, "site refused: missing {place}"),
            SiteFault::BadValue { place } => write!(f, "site refused: bad-value {place}"),
            SiteFault::Duplicate { object } => {
                let object = Named { object: *object };
                write!(f, "site refused: duplicate {object}")
            }
            SiteFault::Dangling { object } => {
                let object = Named { object: *object };
                write!(f, "site refused: dangling {object}")
            }
            SiteFault::TooMany { what } => write!(f, "site refused: too-many {what}"),
            SiteFault::NoMemory => write!(f, "no memory"),
        }
    }
}
