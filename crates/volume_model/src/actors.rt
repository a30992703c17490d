//! Laws of actors, and of runs that are recorded as the entries of a journal, one step an entry.

ghost use Rattle.volume_model.specs.JournalLaws.{StepsAreOfActors, LeavesOthers, MessagesGrow, AgreesAtLast, RunsGoOn, StepsAlike, MessagesAreFound, RefusalsAreOwn, RefusalsLast};

/// Proves that a step of the world is the step of one actor, over the messages made so far.
pub fn steps_are_of_actors()
    ensures { StepsAreOfActors }
{}

/// Proves that an event changes no actor but its own.
pub fn leaves_others()
    ensures { LeavesOthers }
{}

/// Proves that the messages that an event makes are put before the older ones. A refused event changes nothing.
pub fn messages_grow()
    ensures { MessagesGrow }
{}

/// Proves that a prefix of the entries that includes an actor's last entry gives the actor's present state.
pub fn agrees_at_last()
    ensures { AgreesAtLast }
{}

/// Proves that a run with one more step is a run.
pub fn runs_go_on()
    ensures { RunsGoOn }
{}

/// Proves that the result of an event depends only on its actor and on the messages.
pub fn steps_alike()
    ensures { StepsAlike }
{}

/// Proves that the number computed from an entry and a place in it always finds the same message.
pub fn messages_are_found()
    ensures { MessagesAreFound }
{}

/// Proves which refusals an actor can give without knowing the rest of the world.
pub fn refusals_are_own()
    ensures { RefusalsAreOwn }
{}

/// Proves that a refusal that was noted stays true as the journal grows.
pub fn refusals_last()
    ensures { RefusalsLast }
{}
