//! Enrollments are copied.

ghost use Rattle.std.specs.Prelude.{◌≡◌, IfOk};

use crate::EnrollmentSite;
use bac_values::{NoMemory, push};
use object_table::copy_of_texts;
use std::alloc::Global;

fn copy_of_enrollment(alloc: Global, site: &EnrollmentSite) -> Result<EnrollmentSite, NoMemory>
    ensures same { IfOk result (λ copy. copy ≡ site.now) }
{
    let name = site.name.clone()?;
    let texts = copy_of_texts(alloc, site.texts.as_slice())?;
    Ok(EnrollmentSite {
        name,
        texts,
        ..*site
    })
}

/// The same enrollments once more.
pub fn copy_of_enrollments(
    alloc: Global,
    sites: &[EnrollmentSite],
) -> Result<Vec<EnrollmentSite>, NoMemory>
    ensures same { IfOk result (λ copy. copy.items ≡ sites.now) }
{
    let mut copy = Vec::new(alloc);
    for site in sites {
        push(&mut copy, copy_of_enrollment(alloc, site)?)?;
    }
    Ok(copy)
}
