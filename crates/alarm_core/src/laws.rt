//! The laws of the core's definitions, each the contract of a call that does nothing.

ghost use Rattle.alarm_core.specs.LastLists.{ReadsTheLastList};
ghost use Rattle.alarm_core.specs.Laws.{AllowsWhatChecksAccept, ClassesAreThere, CountsTheLongerHistory, KeepsToItsSite, KnowsListedPeers, ObjectListAscends, StandsForItsHistory, StandsOverEvents};
ghost use Rattle.alarm_core.specs.Parts.{RestoresWhatItTells};

/// Going on from event to event, as they come, gives the state and the event-state transitions that looking back over the
/// whole history gives, its notifications and what it sends; the run starts that looking back gives are in that state; and
/// a tick with no unfinished notification is never refused as full.
pub fn stands_for_its_history()
    ensures history { StandsForItsHistory }
{}

/// Of the parts that a state of a site tells a core may be made, and it has that state.
pub fn restores_what_it_tells()
    ensures restores { RestoresWhatItTells }
{}

/// The Recipient_List that is read of a notification class is that of its last edit, and the site's where there was none.
pub fn reads_the_last_list()
    ensures lists { ReadsTheLastList }
{}

/// An event is refused as full exactly where its notifications and those before it that are unfinished are more than there
/// may be; and the number that the refusal tells is how many would be unfinished after the longer history.
pub fn counts_the_longer_history()
    ensures counts { CountsTheLongerHistory }
{}

/// The peers that are known after a history are just those of the site's lists and of the lists of its edits, ascending.
pub fn knows_listed_peers()
    ensures peers { KnowsListedPeers }
{}

/// The class of an object that has one is there after every history, whatever is edited.
pub fn classes_are_there()
    ensures classes { ClassesAreThere }
{}

/// A change is allowed exactly where a check accepts it: of a property where a write of it is answered with no error, and of
/// what gives an object's value where the check of a fault from the field accepts it.
pub fn allows_what_checks_accept()
    ensures changes { AllowsWhatChecksAccept }
{}

/// The state over a list of events, the oldest first, each of which may follow on those before it, is the one that looking
/// back over the history with all of them gives.
pub fn stands_over_events()
    ensures events { StandsOverEvents }
{}

/// The state that a history leaves is one that the state of its site may be, as a snapshot of it keeps to: its properties are
/// such as writes take, its alarms such as the algorithms of its objects make them, and its lists, its outbox and its logs
/// are within their limits.
pub fn keeps_to_its_site()
    ensures states { KeepsToItsSite }
{}

/// Object_List ascends by the identifiers of its objects.
pub fn object_list_ascends()
    ensures list { ObjectListAscends }
{}
