//! The laws of replies.

ghost use Rattle.service_desk.specs.Laws.{EachReplyFits, EachRequestIsAnswered};

/// No reply to a confirmed request has an APDU that is longer than the request says that its sender takes.
pub fn each_reply_fits()
    ensures fits { EachReplyFits }
{}

/// Each confirmed request gets one reply, whatever it asks for and however it is spelled: an acknowledgement, an Error, a
/// Reject or an Abort.
pub fn each_request_is_answered()
    ensures answered { EachRequestIsAnswered }
{}
