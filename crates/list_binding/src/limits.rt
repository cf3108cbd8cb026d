//! What limits a list.

use bac_values::Peer;

/// What limits the list of a class, as `check_edit` of notify_class asks for it.
#[derive(Clone, Copy, Debug)]
pub struct ListLimits<'a> {
    /// The peers that are known, ascending.
    pub known: &'a [Peer],
    /// How many objects belong to the class.
    pub members: u32,
    /// How many notes the class may add to the outbox.
    pub room: u32,
}
