//! What an edit of a class's recipients is decided by.

ghost use Rattle.std.specs.Prelude.{◌≡◌};
ghost use Rattle.std.specs.Option.{option_copied, option_map};
ghost use Rattle.notify_class.specs.declared.class.Class.{Class as Listed};
ghost use Rattle.alarm_core.specs.Allowed.{members_of, room_beside};
ghost use Rattle.alarm_core.specs.Bindings.{BindingsAscend, binding_of};
ghost use Rattle.alarm_core.specs.Classes.{class_in};

use crate::Core;
use crate::class_search::{class_among, peer_bound};
use bac_values::Peer;
use notify_class::{Binding, Class};

impl Core {
    /// The notification class with an instance, if there is one, with its list as the edits have left it. It takes as many
    /// looks as the number of classes has binary digits.
    pub fn class(&self, instance: u32) -> Option<&Class>
        ensures class { option_copied result ≡ class_in instance self.now.classes }
    {
        class_among(self.classes(), instance)
    }

    /// The devices that a request may name as recipients, ascending, with their peers.
    pub fn bindings(&self) -> &[Binding]
        ensures bindings { result.now ≡ self.now.site.bindings }
        ensures ascending { BindingsAscend result.now }
    {
        self.site().bindings.as_slice()
    }

    /// The peer to which a device is bound, if it is.
    pub fn binding(&self, device: u32) -> Option<Peer>
        ensures binding { result ≡ binding_of device self.now.site.bindings }
    {
        peer_bound(self.bindings(), device)
    }

    /// What limits an edit of a class, if there is the class: how many objects have it, and what the other classes leave of
    /// the outbox.
    pub fn edit_room(&self, class: u32) -> Option<(u32, u32)>
        ensures room { result ≡ option_map (λ (there : Listed). (members_of self.now class, room_beside self.now class)) (class_in class self.now.classes) }
    {
        match self.class(class) {
            Some(_there) => Some((self.members(class), self.room_beside(class))),
            None => None,
        }
    }
}
