//! Classes and bindings, found by their instance.

ghost use Rattle.std.specs.Prelude.{◌≡◌, ◌==◌, ◌<◌, AllPairs, IfOk, None, OnErr, Some, length, slice_index_or};
ghost use Rattle.std.specs.Option.{option_copied};
ghost use Rattle.notify_class.specs.declared.binding.Binding.{Binding as Bound};
ghost use Rattle.notify_class.specs.declared.class.Class.{Class as Listed};
ghost use Rattle.alarm_core.specs.Bindings.{BindingsAscend, binding_of};
ghost use Rattle.alarm_core.specs.Classes.{class_in};
ghost use Rattle.alarm_core.specs.ListLimits.{instances};
ghost use Rattle.alarm_core.specs.Places.{IsAt};

use bac_values::Peer;
use notify_class::{Binding, Class};

/// Where the class with this instance stands among classes that ascend.
pub(crate) fn place_of_class(classes: &[Class], instance: u32) -> Result<usize, usize>
    requires ascending { AllPairs (λ earlier later. earlier < later) (instances classes.now) }
    ensures found { IfOk result (λ place. (place < length classes.now) × ((d : Listed) → class_in instance classes.now ≡ Some (slice_index_or classes.now place d))) }
    ensures stands { IfOk result (IsAt (λ (class : Listed). class.instance == instance) classes.now) }
    ensures number { IfOk result (λ place. (d : Listed) → (slice_index_or classes.now place d).instance ≡ instance) }
    ensures absent { OnErr result (class_in instance classes.now ≡ None) }
{
    classes.binary_search_by_key(&instance, |class| class.instance)
}

/// The class with this instance among classes that ascend. It takes as many looks as the number of classes has binary digits.
pub(crate) fn class_among(classes: &[Class], instance: u32) -> Option<&Class>
    requires ascending { AllPairs (λ earlier later. earlier < later) (instances classes.now) }
    ensures class { option_copied result ≡ class_in instance classes.now }
{
    match place_of_class(classes, instance) {
        Ok(place) => Some(&classes[place]),
        Err(_place) => None,
    }
}

// Where the binding of a device stands among bindings that ascend.
fn place_of_binding(bindings: &[Binding], device: u32) -> Result<usize, usize>
    requires ascending { BindingsAscend bindings.now }
    ensures found { IfOk result (λ place. (place < length bindings.now) × ((d : Bound) → binding_of device bindings.now ≡ Some (slice_index_or bindings.now place d).peer)) }
    ensures absent { OnErr result (binding_of device bindings.now ≡ None) }
{
    bindings.binary_search_by_key(&device, |binding| binding.device)
}

/// The peer to which a device is bound among bindings that ascend.
pub(crate) fn peer_bound(bindings: &[Binding], device: u32) -> Option<Peer>
    requires ascending { BindingsAscend bindings.now }
    ensures binding { result ≡ binding_of device bindings.now }
{
    match place_of_binding(bindings, device) {
        Ok(place) => Some(bindings[place].peer),
        Err(_place) => None,
    }
}
