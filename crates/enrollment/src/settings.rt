//! Changes of enrollments are made, and taken back.

ghost use Rattle.std.specs.Prelude.{◌≡◌, IsTrue, Some};
ghost use Rattle.enrollment.specs.Enrollments.{IsEnrollment};
ghost use Rattle.enrollment.specs.Writes.{changed, property_set, set_known, takes, takes_known, takes_value};

use crate::{EnrollmentProperty, EnrollmentSite};
use bac_values::{Bits, PropertyId, Value};
use object_table::What;
use std::mem::replace;

/// Makes a change of an enrollment, and gives the change that takes it back.
pub fn put(site: &mut EnrollmentSite, what: What) -> What
    requires allowed { IsEnrollment site.old }
    requires taken { IsTrue (takes what site.old) }
    ensures site { site.new ≡ changed what site.old }
    ensures allowed { IsEnrollment site.new }
    ensures undo { changed result site.new ≡ site.old }
    ensures takes { IsTrue (takes result site.new) }
    ensures object { site.new.object ≡ site.old.object }
{
    match what {
        What::Property { property, value } => {
            let value = put_value(site, property, value);
            What::Property { property, value }
        }
        What::FieldFault { .. } => unreachable!(),
    }
}

/// Gives a property a value, and gives the value back that it had.
fn put_value(site: &mut EnrollmentSite, property: PropertyId, value: Value) -> Value
    requires allowed { IsEnrollment site.old }
    requires taken { IsTrue (takes_value property.0 value site.old) }
    ensures set { site.new ≡ property_set property.0 value site.old }
    ensures allowed { IsEnrollment site.new }
    ensures undo { property_set property.0 result site.new ≡ site.old }
    ensures takes { IsTrue (takes_value property.0 result site.new) }
    ensures object { site.new.object ≡ site.old.object }
{
    match EnrollmentProperty::of_number(property.0) {
        Some(property) => put_known(site, property, value),
        None => unreachable!(),
    }
}

fn put_known(site: &mut EnrollmentSite, property: EnrollmentProperty, value: Value) -> Value
    requires allowed { IsEnrollment site.old }
    requires taken { IsTrue (takes_known site.old (Some property) value) }
    ensures set { site.new ≡ set_known property value site.old }
    ensures allowed { IsEnrollment site.new }
    ensures undo { set_known property result site.new ≡ site.old }
    ensures takes { IsTrue (takes_known site.new (Some property) result) }
    ensures object { site.new.object ≡ site.old.object }
{
    match (property, value) {
        (EnrollmentProperty::EventEnable, Value::Bits(flags)) => {
            let old = replace(&mut site.enable, flags.three_flags());
            Value::Bits(Bits::of_flags(&old))
        }
        (EnrollmentProperty::EventAlgorithmInhibit, Value::Bool(truth)) => {
            Value::Bool(replace(&mut site.inhibit, truth))
        }
        _ => unreachable!(),
    }
}
