//! What the book says of every site, as the contract of a call that does nothing.

ghost use Rattle.profile.specs.Errors.{read, write_error};
ghost use Rattle.profile.specs.Histories.{Event, is_acknowledged, moment_after, moves_over, stamp_of, state_at};
ghost use Rattle.profile.specs.Notes.{Note, notes_over};
ghost use Rattle.profile.specs.Numbers.{Error, Identifier, Normal, Transition, Value, error_numbers};
ghost use Rattle.profile.specs.Sites.{Log, Site};
ghost use Rattle.profile.specs.Times.{no_stamp};
ghost use Rattle.std.specs.Prelude.{Bool, Err, List, Option, Some, true, [], ◌≡◌, ◌≤◌, ℕ};

/// Before the first event of any site each object is NORMAL and each transition is acknowledged and has no stamp; nothing has
/// moved, and nobody is told of anything; no event is earlier than the start (13.2.2). A write of what can't be read, since the
/// object, the property or the element isn't there, is refused with the error of the read, behind every history and whatever
/// the value (15.5, 15.9); and each error has numbers of its own (18).
pub fn holds_of_every_site()
    ensures states { (site : Site) (id : Identifier) → state_at site [] id ≡ Normal }
    ensures stamps { (site : Site) (id : Identifier) (transition : Transition) → stamp_of site [] id transition ≡ no_stamp }
    ensures acknowledged { (site : Site) (id : Identifier) (transition : Transition) → is_acknowledged site id transition [] ≡ true }
    ensures moves { (site : Site) → moves_over site [] ≡ [] }
    ensures notes { (site : Site) → notes_over site [] ≡ [] }
    ensures moments { (site : Site) (moment : ℕ) → site.device.start ≤ moment_after site [] moment }
    ensures errors { (site : Site) (holds : Log → Bool × ℕ × ℕ) (history : List Event) (id : Identifier) (number : ℕ) (index : Option ℕ) (value : Value) (error : Error)
        → read site holds history id number index ≡ Err error
        → write_error site holds history id number index value ≡ Some error }
    ensures numbers { (one other : Error) → error_numbers one ≡ error_numbers other → one ≡ other }
{}
