//! The reliability of an enrollment.

ghost use Rattle.std.specs.Prelude.{◌≡◌};
ghost use Rattle.enrollment.specs.Reliabilities.{feedback_has_fault, has_fault, reliability_of_enrollment};

use crate::EnrollmentSite;
use bac_values::{ObjectId, Reliability};
use object_table::Table;
use reliability_eval::reliability;

/// The reliability of an enrollment.
pub fn reliability_of_enrollment(table: &Table, site: &EnrollmentSite) -> Reliability
    ensures reliability { result ≡ reliability_of_enrollment site.now table.now }
{
    if has_fault(table, site.monitored) || feedback_has_fault(table, site.feedback) {
        Reliability::MonitoredObjectFault
    } else {
        Reliability::NoFaultDetected
    }
}

fn has_fault(table: &Table, object: ObjectId) -> bool
    ensures fault { result ≡ has_fault object table.now }
{
    match reliability(table, object) {
        Reliability::NoFaultDetected => false,
        _ => true,
    }
}

fn feedback_has_fault(table: &Table, feedback: Option<ObjectId>) -> bool
    ensures fault { result ≡ feedback_has_fault feedback table.now }
{
    match feedback {
        Some(feedback) => has_fault(table, feedback),
        None => false,
    }
}
