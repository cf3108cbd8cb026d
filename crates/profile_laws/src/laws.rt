//! The laws of services in the words of the standard's tables, each the contract of a call that does nothing.

ghost use Rattle.profile_laws.specs.FieldRefusals.{RefusesFaultsInTurn, RefusesSetsInTurn};
ghost use Rattle.profile_laws.specs.Heeded.{IgnoresTheRest};
ghost use Rattle.profile_laws.specs.Laws.{AnswersAcknowledgementsInTurn, AnswersListsInTurn, AnswersRangesInTurn, AnswersReadsInTurn, AnswersWritesInTurn};
ghost use Rattle.profile_laws.specs.ListBack.{ReadsBackEdits, UndoesWhatWasAdded};
ghost use Rattle.profile_laws.specs.ManyLaws.{EachCanBeRead, EachPartIsARead, SummariesAscend, SummariesHaveNoErrors};
ghost use Rattle.profile_laws.specs.ReadBack.{ReadsBackWrites};
ghost use Rattle.profile_laws.specs.RunStarts.{RunsStartAtPoints};
ghost use Rattle.profile_laws.specs.ToldStates.{StatesWereEntered, TellsTheState};
ghost use Rattle.profile_laws.specs.TooLong.{AbortsLongInformation, AbortsLongLists, AbortsLongRanges, AbortsLongReads, AbortsLongSummaries, AbortsSegments};

/// No error is answered where an earlier one of its service's table applies: a write of a property, a read of one, a read of a
/// range and an acknowledgement are answered with the first error of the table whose condition holds, and with none, and no
/// Reject, exactly where none of them holds. An edit of a list is answered so by its object and its property, and where no error
/// of these applies by its elements: with the error of the first that fails, and its number, or with none.
pub fn no_error_before_its_turn()
    ensures write { AnswersWritesInTurn }
    ensures read { AnswersReadsInTurn }
    ensures range { AnswersRangesInTurn }
    ensures acknowledge { AnswersAcknowledgementsInTurn }
    ensures list { AnswersListsInTurn }
{}

/// Where a write of a property is entered, a read of the same property and index is answered, in the state behind it, by the
/// value that was written. Record_Count of an event log is the one exception: a write of 0 clears the log, and what is read is
/// how many records it has then, which is 0 where the write comes with no transition.
pub fn what_is_written_is_read_back()
    ensures back { ReadsBackWrites }
{}

/// What ReadPropertyMultiple tells of a property is what ReadProperty answers, which can be asked for each: its octets, or the
/// first error of its table. Of ALL it tells the properties that the object has by its table, by ascending number. What is told
/// comes in the order in which it is asked.
pub fn many_properties_are_reads()
    ensures each { EachPartIsARead }
    ensures asked { EachCanBeRead }
{}

/// GetAlarmSummary and GetEnrollmentSummary are answered with no Error, and with no Reject where they are in their grammar. Their
/// objects ascend by their identifiers, each once, and those of an alarm summary are those objects of GetEventInformation that
/// are in alarm.
pub fn summaries_tell_each_once()
    ensures errors { SummariesHaveNoErrors }
    ensures ascending { SummariesAscend }
{}

/// Where an edit of a list is entered, what it leaves of the list is what a read of Recipient_List is answered with in the state
/// behind it. Elements that were added to a list in which none of them was, and are removed by the same parameters, leave the
/// list as it was.
pub fn what_is_edited_is_read_back()
    ensures back { ReadsBackEdits }
    ensures undone { UndoesWhatWasAdded }
{}

/// What comes from the field, by a script or at a site, is refused for the first reason of its table whose condition holds: a
/// present value as one of an unknown object, of an object without a value, of one out of service, of another type, or out of
/// range; and a fault as one of an unknown object, of an object without a value, or of a reliability that none gives. It is a
/// write at its moment exactly where none holds, and nobody is answered.
pub fn field_inputs_are_refused_in_turn()
    ensures sets { RefusesSetsInTurn }
    ensures faults { RefusesFaultsInTurn }
{}

/// A datagram is ignored exactly where it isn't a message to this device with an APDU whose header is known, and that is a
/// confirmed request, a Who-Is that asks this device, or an answer to a notification in flight. Every other is answered, or is an
/// event.
pub fn unheeded_datagrams_are_ignored()
    ensures ignored { IgnoresTheRest }
{}

/// An answer is aborted, since it would have to be sent in segments, exactly where it has more octets than its asker takes: of
/// a service whose result is told whole, all of that; of GetEventInformation and ReadRange, which tell as much as has room, the
/// first that there is to tell. A request in segments is always aborted.
pub fn long_answers_are_aborted()
    ensures reads { AbortsLongReads }
    ensures lists { AbortsLongLists }
    ensures summaries { AbortsLongSummaries }
    ensures information { AbortsLongInformation }
    ensures ranges { AbortsLongRanges }
    ensures segments { AbortsSegments }
{}

/// The run of a rule starts at the point from which on, and at no earlier one, the rule has had the key that it has at the newest
/// one, of all points of the object's course that count. There is none exactly where the rule has no key at the newest point, or
/// the object is inhibited there.
pub fn run_starts_are_points()
    ensures starts { RunsStartAtPoints }
{}

/// What is read of properties that no write changes is what the state tells: Event_State, Acked_Transitions and Event_Time_Stamps
/// of the object's alarm, Status_Flags of its event state and its reliability, Priority of a class as the site has it, and
/// Total_Record_Count of a log. The event state of an alarm is the one that was entered last, and NORMAL where none was.
pub fn reads_tell_the_state()
    ensures tells { TellsTheState }
    ensures entered { StatesWereEntered }
{}
