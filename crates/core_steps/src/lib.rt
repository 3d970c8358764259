//! What a task's calls do to its value, and that it goes on standing by the events.
#![tactic(auto)]

ghost use Rattle.core_steps.specs.Laws.{DeliverStands, ActStands, CompleteStands, FailureStands, WindowActStands, WindowEndStands, WindowFailureStands, OpenWindowStands, TimesStand, CommitStands, DeliverKeeps, ActKeeps, CompleteKeeps, FailureKeeps, WindowActKeeps, WindowEndKeeps, WindowFailureKeeps, OpenWindowKeeps, TimesKeep, CommitKeeps, FreshStands};

/// Each call's step leaves the core standing by the events before and its own.
pub fn calls_stand()
    ensures deliver { DeliverStands }
    ensures act { ActStands }
    ensures complete { CompleteStands }
    ensures failure { FailureStands }
    ensures window_act { WindowActStands }
    ensures window_end { WindowEndStands }
    ensures window_failure { WindowFailureStands }
    ensures open_window { OpenWindowStands }
    ensures times { TimesStand }
    ensures commit { CommitStands }
    ensures fresh { FreshStands }
{}

/// Each call's step keeps what a core keeps.
pub fn calls_keep()
    ensures deliver { DeliverKeeps }
    ensures act { ActKeeps }
    ensures complete { CompleteKeeps }
    ensures failure { FailureKeeps }
    ensures window_act { WindowActKeeps }
    ensures window_end { WindowEndKeeps }
    ensures window_failure { WindowFailureKeeps }
    ensures open_window { OpenWindowKeeps }
    ensures times { TimesKeep }
    ensures commit { CommitKeeps }
{}
