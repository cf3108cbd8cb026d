//! What types say of values, for proofs alone: what is asked in a `prove!` costs nothing as the program runs.
ghost use Rattle.std.specs.Prelude.{◌≡◌, All, true};
ghost use Rattle.alarm_core.specs.Fits.{FitsEnrollment, FitsEvent, FitsObject, FitsSite, FitsText, FitsValue, FitsWhat};

use crate::{Act, EnrollmentSite, Event, Site};
use bac_values::{Text, Value};
use object_table::{ObjectSite, What};

// Whether a text keeps the rules of its type, as each does.
fn text_fits(text: &Text) -> bool
    ensures fits { FitsText text.now }
    ensures always { result ≡ true }
{
    let _octets = text.octets();
    true
}

// Whether some texts do.
fn texts_fit(texts: &[Text]) -> bool
    ensures fits { All FitsText texts.now }
    ensures always { result ≡ true }
{
    prove!(texts.iter().all(|text| text_fits(text)));
    true
}

// Whether a value does.
fn value_fits(value: &Value) -> bool
    ensures fits { FitsValue value.now }
    ensures always { result ≡ true }
{
    match value {
        Value::Unsigned(number) => {
            let _number = *number;
            true
        }
        Value::Signed(number) => {
            let _number = *number;
            true
        }
        Value::Text(text) => {
            let _octets = text.octets();
            true
        }
        Value::Bits(string) => {
            let _length = string.length();
            true
        }
        _ => true,
    }
}

// Whether a change does.
fn what_fits(what: &What) -> bool
    ensures fits { FitsWhat what.now }
    ensures always { result ≡ true }
{
    match what {
        What::Property { value, .. } => value_fits(value),
        What::FieldFault { .. } => true,
    }
}

// Whether the values and the texts of an object do, as those of each do.
fn object_fits(object: &ObjectSite) -> bool
    ensures fits { FitsObject object.now }
    ensures always { result ≡ true }
{
    prove!(
        object
            .alarm_values
            .as_slice()
            .iter()
            .all(|value| value_fits(value))
    );
    prove!(texts_fit(object.texts.as_slice()));
    value_fits(&object.value)
}

// Whether the texts of an enrollment do.
fn enrollment_fits(enrollment: &EnrollmentSite) -> bool
    ensures fits { FitsEnrollment enrollment.now }
    ensures always { result ≡ true }
{
    texts_fit(enrollment.texts.as_slice())
}

/// Every site that the program holds has values and texts that fit their types. The call does nothing.
pub fn site_fits(site: &Site)
    ensures fits { FitsSite site.now }
{
    prove!(
        site.objects
            .as_slice()
            .iter()
            .all(|object| object_fits(object))
    );
    prove!(
        site.enrollments
            .as_slice()
            .iter()
            .all(|enrollment| enrollment_fits(enrollment))
    );
}

/// Every event that the program holds has values that fit their types. The call does nothing.
pub fn event_fits(event: &Event)
    ensures fits { FitsEvent event.now }
{
    if let Act::Write { change } = &event.act {
        prove!(what_fits(&change.what));
    }
}
