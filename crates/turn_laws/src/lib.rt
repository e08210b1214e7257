//! Turns of a loop, and what they do to memory: definitions and their laws, which are proved, and nothing is computed here.
//!
//! A turn begins right behind the phis of the loop's header, and ends at the next state that stands there in the same frame. What
//! its steps read, write, make and release is the log of the trees of its instructions.
#![tactic(auto)]

ghost use Rattle.turn_laws.specs.Laws.{ImageIsInstance, FollowsIsOutcome, OutcomeFollows, LoggedIsOutcome, RecordingIsLogged, ChainsAreLogged, AccessesAreLive, NamesRise, LogsAreAt, InstructionsAskAt, StepIsLogged, StepLogIsAt, RunGoesOn, RunNamesRise, TurnIsRun, ArrivedIsFirst, FirstIsArrived, LeftIsFirst, FirstIsLeft, SpentIsWithin, WithinGoesOn, HeaderIsStop, TurnIsSettled, TurnsAreSettled, TurnIsOne, TurnsAreOne, NextBegins, TurnThenTurns, TurnBeforeTurns, TurnsGoOn, TurnsAreRun, TurnsNamesRise, RunKeepsFrames, TurnsKeepFrames, AccessesJoin};

/// The outcome of a tree on an image is its meaning over that memory.
pub fn an_image_is_a_memory<A>()
    ensures { ImageIsInstance A }
{}

/// What may follow, where a call has one answer, is the meaning.
pub fn what_follows_is_the_meaning<A, M>()
    ensures allowed { FollowsIsOutcome A M }
    ensures follows { OutcomeFollows A M }
{}

/// A log changes nothing of the meaning.
pub fn a_log_changes_nothing<A, M>()
    ensures { LoggedIsOutcome A M }
{}

/// A memory that keeps the events beside it has the log in the end.
pub fn a_memory_may_keep_the_log<A, M>()
    ensures { RecordingIsLogged A M }
{}

/// Logs of trees stand one after another.
pub fn chains_are_logged<A, B, M>()
    ensures { ChainsAreLogged A B M }
{}

/// What a call reads and writes are bytes of live objects.
pub fn accesses_are_live()
    ensures { AccessesAreLive }
{}

/// The objects that a tree makes take the next names.
pub fn names_rise<A>()
    ensures { NamesRise A }
{}

/// Where the calls of a tree are of one site, so is its log.
pub fn logs_are_at_the_site<A, M>()
    ensures { LogsAreAt A M }
{}

/// The calls of an instruction are of its site.
pub fn instructions_ask_at_their_site()
    ensures { InstructionsAskAt }
{}

/// The log of a step is that of its outcome, and of the instruction at which it stands.
pub fn a_step_is_logged()
    ensures outcome { StepIsLogged }
    ensures site { StepLogIsAt }
{}

/// A run goes on where its steps were used up, and so does its log.
pub fn a_run_goes_on()
    ensures { RunGoesOn }
{}

/// A turn is a run, and does what it does.
pub fn a_turn_is_a_run()
    ensures { TurnIsRun }
{}

/// A turn that arrives ends at the first later state that stands at the header again.
pub fn a_turn_ends_at_the_first()
    ensures arrived { ArrivedIsFirst }
    ensures first { FirstIsArrived }
{}

/// One that leaves ends at the first later state that is no longer in the loop.
pub fn a_turn_leaves_at_the_first()
    ensures left { LeftIsFirst }
    ensures first { FirstIsLeft }
{}

/// A turn goes on from each state within, as from where it was spent.
pub fn a_turn_goes_on()
    ensures spent { SpentIsWithin }
    ensures more { WithinGoesOn }
{}

/// It arrives where a run to the header would stop.
pub fn a_header_is_a_stop()
    ensures { HeaderIsStop }
{}

/// A longer budget changes nothing of a turn that was not spent, nor of turns that arrived.
pub fn turns_are_settled()
    ensures one { TurnIsSettled }
    ensures many { TurnsAreSettled }
{}

/// Turns lead to one state at most.
pub fn turns_are_unique()
    ensures one { TurnIsOne }
    ensures many { TurnsAreOne }
{}

/// The next turn begins where one comes back, and turns are one after another.
pub fn a_turn_follows_a_turn()
    ensures begins { NextBegins }
    ensures joins { TurnThenTurns }
    ensures splits { TurnBeforeTurns }
{}

/// Turns go on where turns arrived, and so do their logs.
pub fn turns_go_on()
    ensures { TurnsGoOn }
{}

/// Turns that arrived are a run, and do what it does.
pub fn turns_are_a_run()
    ensures { TurnsAreRun }
{}

/// The objects that a run makes, and those that turns make, take the next names.
pub fn names_rise_in_runs()
    ensures run { RunNamesRise }
    ensures turns { TurnsNamesRise }
{}

/// Turns are turns of one frame, and those below it stay.
pub fn turns_keep_their_frame()
    ensures run { RunKeepsFrames }
    ensures turns { TurnsKeepFrames }
{}

/// Accesses and names stand in the order of the events.
pub fn accesses_join()
    ensures { AccessesJoin }
{}
