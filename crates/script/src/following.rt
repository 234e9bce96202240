// Worked examples of the definition of following a script. Functions without a body's work, so that a contract states them.
ghost use Rattle.script.specs.Conflicting.{checked_first, checked_second, checking, one_by_one, one_session, two_blocks, two_sessions, waiting_behind};
ghost use Rattle.script.specs.Conflicting.{with_another_line, with_session_three, with_sessions_exchanged, without_an_end, without_latches};
ghost use Rattle.script.specs.Conflicting.{without_session_two, written};
ghost use Rattle.script.specs.Follows.{FollowsScript};
ghost use Rattle.latch_model.specs.declared.history.Grant.TheVariants.{Never, Checked};

/// Two requests that write one key: three histories follow their script, and these others don't.
pub fn two_conflicting_requests()
    ensures one_by_one { FollowsScript one_by_one two_sessions }
    ensures waiting { FollowsScript (waiting_behind 1) two_sessions }
    ensures waiting_late { FollowsScript (waiting_behind 2) two_sessions }
    ensures session_missing { ¬ FollowsScript without_session_two two_sessions }
    ensures latches_missing { ¬ FollowsScript without_latches two_sessions }
    ensures another_line { ¬ FollowsScript with_another_line two_sessions }
    ensures sessions_exchanged { ¬ FollowsScript with_sessions_exchanged two_sessions }
    ensures end_missing { ¬ FollowsScript without_an_end two_sessions }
    ensures session_added { ¬ FollowsScript with_session_three two_sessions }
{}

/// A session's blocks stand in the order of its commands.
pub fn blocks_stand_in_order()
    ensures in_order { FollowsScript (two_blocks 2 4) one_session }
    ensures exchanged { ¬ FollowsScript (two_blocks 4 2) one_session }
{}

/// An optimistic request ends by what its checks passed: what it asked for, where nothing in conflict was held in front of its begin.
pub fn checks_pass_what_is_free()
    ensures passed { FollowsScript (checked_first (Checked written)) checking }
    ensures passed_only { ¬ FollowsScript (checked_first Never) checking }
    ensures failed { FollowsScript (checked_second Never) checking }
    ensures failed_only { ¬ FollowsScript (checked_second (Checked written)) checking }
{}
