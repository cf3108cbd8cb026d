//! The laws of recipients that are silent.

ghost use Rattle.outbox.specs.Silence.{GivesUpOne, GivesUpAll, LosesNothingElse, ForgetsTheSilent};

/// A note that is given up is finished alone where the site didn't choose otherwise. Where it did, nothing waits for
/// the recipient behind that, and nothing is sent to it then; no note is lost else. So what waits for a recipient that
/// was silent for longer than all transmissions of a note may take was queued since then.
pub fn silent_recipients()
    ensures one { GivesUpOne }
    ensures all { GivesUpAll }
    ensures loses { LosesNothingElse }
    ensures forgets { ForgetsTheSilent }
{}
