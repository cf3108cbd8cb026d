//! The text of a generated site.

ghost use Rattle.std.specs.Prelude.{◌≡◌, ◌≤◌, IfOk, string_bytes};
ghost use Rattle.work_load.specs.Site.{class_text, classes_text, destination_text, destinations_text, object_text, objects_text, settings_text, workload_site};

use crate::kind::Kind;
use bac_values::NoMemory;
use std::alloc::{AllocError, Global};

const OBJECTS: u64 = 40;

const DEVICE: &str = "[device]
instance = 2000
start = 1700000000000
";

const ENROLLMENTS: &str = "
[[enrollment]]
instance = 1
class = 1
algorithm = \"unsigned-range\"
monitored = \"positive-integer-value:1\"
low = 20
high = 80
time_delay = 5

[[enrollment]]
instance = 2
class = 1
algorithm = \"command-failure\"
monitored = \"integer-value:0\"
feedback = \"integer-value:6\"
time_delay = 5
";

const LOGS: &str = "
[[log]]
instance = 1
size = 64
classes = [1, 2]

[[log]]
instance = 2
size = 64
stop_when_full = true
classes = [3]
";

fn class_text(alloc: Global, class: u64) -> Result<String, AllocError>
    requires { class ≤ 3 }
    ensures text { IfOk result (λ text. string_bytes text ≡ class_text class) }
{
    let (first, second, third) = (10 * class, 20 * class, 30 * class);
    format!(in alloc;
        "\n[[class]]\ninstance = {class}\npriority = [{first}, {second}, {third}]\nack_required = [true, true, false]\n"
    )
}

fn destination_text(
    alloc: Global,
    process: u64,
    class: u64,
    confirmed: &str,
) -> Result<String, AllocError>
    ensures text { IfOk result (λ text. string_bytes text ≡ destination_text process class confirmed.now) }
{
    format!(in alloc;
        "\n[[destination]]\nclass = {class}\naddress = \"10.1.0.{process}:47808\"\nprocess = {process}\nconfirmed = {confirmed}\n"
    )
}

fn settings_text(kind: Kind) -> &'static str
    ensures text { result.now ≡ settings_text kind }
{
    match kind {
        Kind::Integer | Kind::PositiveInteger => "value = 50\nlow = 20\nhigh = 80\ndeadband = 5\n",
        Kind::Binary => "value = \"inactive\"\nalarm_value = \"active\"\n",
        Kind::MultiState => "value = 1\nstates = 4\nalarm_values = [3, 4]\n",
        Kind::BitString =>
            "value = \"0000\"\nmask = \"0011\"\nalarm_values = [\"0001\", \"0010\"]\n",
        Kind::CharacterString => "value = \"ok\"\nalarm_values = [\"fire\", \"leak\"]\n",
    }
}

fn object_text(alloc: Global, instance: u64) -> Result<String, AllocError>
    ensures text { IfOk result (λ text. string_bytes text ≡ object_text instance) }
{
    let kind = Kind::at(instance);
    let name = kind.name();
    let class = 1 + instance % 3;
    let delay = 5 + instance % 4;
    let settings = settings_text(kind);
    format!(in alloc;
        "\n[[object]]\nkind = \"{name}\"\ninstance = {instance}\nclass = {class}\ntime_delay = {delay}\n{settings}"
    )
}

// So many objects, one after the other.
fn objects_text(alloc: Global, count: u64) -> Result<String, AllocError>
    ensures text { IfOk result (λ text. string_bytes text ≡ objects_text count) }
{
    let mut text = String::new(alloc);
    for instance in 0..count {
        text.push_str(object_text(alloc, instance)?.as_str())?;
    }
    Ok(text)
}

fn classes_text(alloc: Global) -> Result<String, AllocError>
    ensures text { IfOk result (λ text. string_bytes text ≡ classes_text) }
{
    let first = class_text(alloc, 1)?;
    let second = class_text(alloc, 2)?;
    let third = class_text(alloc, 3)?;
    format!(in alloc; "{first}{second}{third}")
}

fn destinations_text(alloc: Global) -> Result<String, AllocError>
    ensures text { IfOk result (λ text. string_bytes text ≡ destinations_text) }
{
    let first = destination_text(alloc, 1, 1, "true")?;
    let second = destination_text(alloc, 2, 1, "false")?;
    let third = destination_text(alloc, 3, 2, "true")?;
    let fourth = destination_text(alloc, 4, 3, "true")?;
    let fifth = destination_text(alloc, 5, 3, "false")?;
    format!(in alloc; "{first}{second}{third}{fourth}{fifth}")
}

/// The text of the workload's site: forty objects of all kinds in three classes with five destinations, two enrollments,
/// and two logs.
pub fn make_site(alloc: Global) -> Result<Vec<u8>, NoMemory>
    ensures text { IfOk result (λ text. text.items ≡ workload_site) }
{
    let classes = classes_text(alloc)?;
    let destinations = destinations_text(alloc)?;
    let objects = objects_text(alloc, OBJECTS)?;
    let text = format!(in alloc; "{DEVICE}{classes}{destinations}{objects}{ENROLLMENTS}{LOGS}")?;
    Ok(text.into_bytes())
}
