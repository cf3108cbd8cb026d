//! The statuses with which a program ends, their numbers and their texts.

ghost use Rattle.std.specs.Prelude.{◌≡◌};
ghost use Rattle.alarm_server.specs.Status.{code_of, of_keep_fault, of_line_fault, of_open_fault, of_site_fault, of_unsent, open_fault_text, status_text};

use crate::emission::Unsent;
use alarm_journal::OpenFault;
use bac_values::NoMemory;
use ground_io::Failed;
use script_lines::LineFault;
use site_config::SiteFault;
use state_codec::KeepFault;
use std::alloc::AllocError;
use std::fmt;

/// The forms of the words.
const USAGE: &str =
    "usage: trial LOW HIGH DEADBAND DELAY NORMAL | session SITE JOURNAL | workload SEED COUNT | serve SITE JOURNAL COUNT | ship SITE JOURNAL FROM | standby SITE JOURNAL";

/// How a program ends.
#[derive(Debug, Drop, PartialEq)]
pub enum Status {
    /// The script was read to its end.
    Done,
    /// The words are none of the forms.
    Usage,
    /// The text of the site is none.
    SiteRefused {
        /// Why, by its first fault.
        fault: SiteFault,
    },
    /// A line of the script isn't in the grammar.
    ScriptRefused {
        /// The line's number, from 1.
        line: u64,
    },
    /// A source failed.
    ReadFault,
    /// An emission failed.
    EmitFault,
    /// A call of the device failed.
    DiskFault,
    /// The device holds no journal of the site, or a damaged one.
    JournalRefused {
        /// Why, by its first fault.
        fault: OpenFault,
    },
    /// Memory was refused.
    NoMemory,
    /// The link failed.
    LinkFault,
}

impl Status {
    /// The exit status of a program.
    pub fn code(&self) -> u8
        ensures code { result ≡ code_of self.now }
    {
        match self {
            Status::Done => 0,
            Status::Usage => 2,
            Status::SiteRefused { .. } => 3,
            Status::ScriptRefused { .. } => 4,
            Status::ReadFault => 5,
            Status::EmitFault => 6,
            Status::DiskFault => 7,
            Status::JournalRefused { .. } => 8,
            Status::NoMemory => 9,
            Status::LinkFault => 10,
        }
    }
}

/// Why a journal isn't opened, as a status says it.
#[derive(Clone, Copy)]
struct Refused {
    fault: OpenFault,
}

impl fmt::Display for Refused {
    ghost use Rattle.std.specs.Prelude.{Some};

    ghost output = { λ refused. Some (open_fault_text refused.fault) };

    fn fmt<W: fmt::Write>(&self, f: &mut fmt::Formatter<W>) -> fmt::Result {
        match self.fault {
            OpenFault::DiskFault => write!(f, "disk fault"),
            OpenFault::SmallDevice { size, need } => {
                write!(f, "journal refused: small-device {size} {need}")
            }
            OpenFault::Foreign { at } => write!(f, "journal refused: foreign {at}"),
            OpenFault::Damaged { at } => write!(f, "journal refused: damaged {at}"),
            OpenFault::NoMemory => write!(f, "no memory"),
        }
    }
}

impl fmt::Display for Status {
    ghost use Rattle.std.specs.Prelude.{Some};

    ghost output = { λ status. Some (status_text status) };

    fn fmt<W: fmt::Write>(&self, f: &mut fmt::Formatter<W>) -> fmt::Result {
        match self {
            Status::Done => write!(f, "done"),
            Status::Usage => write!(f, "{USAGE}"),
            Status::SiteRefused { fault } => write!(f, "{fault}"),
            Status::ScriptRefused { line } => write!(f, "script refused: line {line}"),
            Status::ReadFault => write!(f, "read fault"),
            Status::EmitFault => write!(f, "emit fault"),
            Status::DiskFault => write!(f, "disk fault"),
            Status::JournalRefused { fault } => {
                let refused = Refused { fault: *fault };
                write!(f, "{refused}")
            }
            Status::NoMemory => write!(f, "no memory"),
            Status::LinkFault => write!(f, "link fault"),
        }
    }
}

impl From<NoMemory> for Status {
    ghost use Rattle.std.specs.Prelude.{◌≡◌};
    ghost use Rattle.alarm_server.specs.declared.status.Status.TheVariants as status;

    ghost from_gives = { λ _ fault. fault ≡ status.NoMemory };

    fn from(_refused: NoMemory) -> Status {
        Status::NoMemory
    }
}

impl From<AllocError> for Status {
    ghost use Rattle.std.specs.Prelude.{◌≡◌};
    ghost use Rattle.alarm_server.specs.declared.status.Status.TheVariants as status;

    ghost from_gives = { λ _ fault. fault ≡ status.NoMemory };

    fn from(_refused: AllocError) -> Status {
        Status::NoMemory
    }
}

impl From<Failed> for Status {
    ghost use Rattle.std.specs.Prelude.{◌≡◌};
    ghost use Rattle.alarm_server.specs.declared.status.Status.TheVariants as status;

    ghost from_gives = { λ _ fault. fault ≡ status.ReadFault };

    fn from(_failed: Failed) -> Status {
        Status::ReadFault
    }
}

impl From<SiteFault> for Status {
    ghost from_gives = { λ fault status. status ≡ of_site_fault fault };

    fn from(fault: SiteFault) -> Status {
        match fault {
            SiteFault::NoMemory => Status::NoMemory,
            fault => Status::SiteRefused { fault },
        }
    }
}

impl From<Unsent> for Status {
    ghost from_gives = { λ unsent status. status ≡ of_unsent unsent };

    fn from(unsent: Unsent) -> Status {
        match unsent {
            Unsent::Lost => Status::EmitFault,
            Unsent::NoMemory => Status::NoMemory,
        }
    }
}

impl From<OpenFault> for Status {
    ghost from_gives = { λ fault status. status ≡ of_open_fault fault };

    fn from(fault: OpenFault) -> Status {
        match fault {
            OpenFault::DiskFault => Status::DiskFault,
            OpenFault::NoMemory => Status::NoMemory,
            fault => Status::JournalRefused { fault },
        }
    }
}

impl From<KeepFault> for Status {
    ghost from_gives = { λ fault status. status ≡ of_keep_fault fault };

    fn from(fault: KeepFault) -> Status {
        match fault {
            KeepFault::DiskFault => Status::DiskFault,
            KeepFault::NoMemory => Status::NoMemory,
        }
    }
}

impl From<LineFault> for Status {
    ghost from_gives = { λ fault status. status ≡ of_line_fault fault };

    fn from(fault: LineFault) -> Status {
        match fault {
            LineFault::Grammar { line } => Status::ScriptRefused { line },
            LineFault::Read => Status::ReadFault,
            LineFault::NoMemory => Status::NoMemory,
        }
    }
}
