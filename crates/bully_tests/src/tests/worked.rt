//! The scripts: short lists of events, with what is known to come of them. They try the definitions of bully_world and
//! bully_agree, and may be used to judge a change of one.

ghost use Rattle.std.specs.Prelude.{◌≡◌, List, [], ◌∷◌, true, false};
ghost use Rattle.bully_base.specs.Setup.{Setup};
ghost use Rattle.bully_base.specs.declared.node.Status.{Status};
ghost use Rattle.bully_calls.specs.declared.call.Answer.{Answer};
ghost use Rattle.bully_calls.specs.declared.call.Phase.{Phase};
ghost use Rattle.bully_tests.specs.Claims.{EndsAs, IsRefusedAt, IsAnsweredAt, After, Goes, Saw, shown_at, call_at};
ghost use Rattle.bully_tests.specs.Claims.{phase_at};
ghost use Rattle.bully_tests.specs.Scripts.{trace_setup, weighted_setup, down, alone, alone_shown, alone_crashed};
ghost use Rattle.bully_tests.specs.Scripts.{alone_back, kept_shown, kept_back_shown, cleared_back_shown, others_down};
ghost use Rattle.bully_tests.specs.Scripts.{node_3_alone, others_down_points, all_up, all_up_with, all_normal};
ghost use Rattle.bully_tests.specs.Scripts.{all_up_calls, by_weight, by_number, by_weight_shown, coordinator_crashed};
ghost use Rattle.bully_tests.specs.Scripts.{coordinator_crashed_shown, coordinator_crashed_points, recovered_twice};
ghost use Rattle.bully_tests.specs.Scripts.{reply_lost, reply_lost_unbalanced, orphan_halt, orphan_halt_shown};
ghost use Rattle.bully_tests.specs.Scripts.{orphan_halt_late, orphan_halt_points, orphan_ready, orphan_ready_points};
ghost use Rattle.bully_tests.specs.Scripts.{orphan_ready_returned, orphan_ready_shown, orphan_ready_dropped};
ghost use Rattle.bully_tests.specs.Scripts.{orphan_ready_dropped_calls, orphan_ready_dropped_shown, dropped_live};
ghost use Rattle.bully_tests.specs.Scripts.{dropped_nothing, dropped_down, late_failure, late_failure_points};
ghost use Rattle.bully_tests.specs.Scripts.{announced_too_late, announced_too_late_shown, announced_too_late_node};
ghost use Rattle.bully_world.specs.Lawful.{IsLawful};
ghost use Rattle.bully_world.specs.World.{World, point};
ghost use Rattle.bully_calls.specs.declared.event.Event.{Event};
ghost use Rattle.bully_calls.specs.declared.event.Refused.{Refused};

/// The scripts come out as this project's profile prints them. A number after a script counts events: `After`, `Goes`
/// and the claims that a trace saw speak of the world after the first so many, `IsRefusedAt` and `IsAnsweredAt` of the
/// event that follows them, and `EndsAs` of them all. A lawful list leads to one world, so each claim is of *the*
/// world.
pub fn worked_scripts()
    ensures one_world { (setup : Setup) (events : List Event) (answers others : List Answer) (w v : World)
        → IsLawful setup events answers w → IsLawful setup events others v → (v ≡ w) × (others ≡ answers) }
    ensures header_alone { EndsAs (trace_setup 2 1) [] 0 (down ∷ down ∷ []) }
    ensures alone_ends { EndsAs (trace_setup 1 2) alone 6 alone_shown }
    ensures kept_ends { EndsAs (weighted_setup 1 2 (1 ∷ []) true) alone_crashed 7 kept_shown }
    ensures kept_back_ends { EndsAs (weighted_setup 1 2 (1 ∷ []) true) alone_back 8 kept_back_shown }
    ensures cleared_ends { EndsAs (trace_setup 1 2) alone_crashed 7 (down ∷ []) }
    ensures cleared_back_ends { EndsAs (trace_setup 1 2) alone_back 8 cleared_back_shown }
    ensures others_down_ends { EndsAs (trace_setup 3 3) others_down 12 node_3_alone }
    ensures others_down_goes { Goes (trace_setup 3 3) others_down (λ w. point w 3) others_down_points }
    ensures all_up_ends { EndsAs (trace_setup 3 3) all_up 26 all_normal }
    ensures all_up_goes { Goes (trace_setup 3 3) all_up (λ w. call_at w 3) all_up_calls }
    ensures by_weight_ends { EndsAs (weighted_setup 3 7 (1 ∷ 2 ∷ 1 ∷ []) false)
        (all_up_with by_weight) 26 by_weight_shown }
    ensures by_weight_refused { IsRefusedAt (weighted_setup 3 7 (1 ∷ 2 ∷ 1 ∷ []) false)
        (all_up_with by_number) 18 Refused.BadTable }
    ensures by_number_refused { IsRefusedAt (trace_setup 3 7) (all_up_with by_weight) 18 Refused.BadTable }
    ensures all_up_saw { After (trace_setup 3 3) all_up 26 (λ w. Saw (trace_setup 3 3) w 2 Status.Normal (Some 3)) }
    ensures all_up_differs { After (trace_setup 3 3) all_up 26 (λ w.
        ¬ Saw (trace_setup 3 3) w 2 Status.Normal (Some 2)) }
    ensures coordinator_crashed_ends { EndsAs (trace_setup 3 3) coordinator_crashed 34 coordinator_crashed_shown }
    ensures coordinator_crashed_goes { Goes (trace_setup 3 3) coordinator_crashed (λ w.
        point w 1) coordinator_crashed_points }
    ensures recovered_twice_refused { IsRefusedAt (trace_setup 1 1) recovered_twice 1 Refused.IsUp }
    ensures reply_lost_ends { EndsAs (trace_setup 3 3) reply_lost 15 node_3_alone }
    ensures reply_lost_refused { IsRefusedAt (trace_setup 3 3) reply_lost_unbalanced 13 Refused.BadTable }
    ensures orphan_halt_ends { EndsAs (trace_setup 3 3) orphan_halt 38 orphan_halt_shown }
    ensures orphan_halt_node { Goes (trace_setup 3 3) orphan_halt (λ w. shown_at w 1) orphan_halt_late }
    ensures orphan_halt_discarded { IsAnsweredAt (trace_setup 3 3) orphan_halt 16 Answer.Discarded }
    ensures orphan_halt_saw { After (trace_setup 3 3) orphan_halt 33 (λ w.
        Saw (trace_setup 3 3) w 1 Status.Election None) }
    ensures orphan_halt_no { IsAnsweredAt (trace_setup 3 3) orphan_halt 35 Answer.No }
    ensures orphan_halt_goes { Goes (trace_setup 3 3) orphan_halt (λ w. point w 3) orphan_halt_points }
    ensures orphan_ready_refused { IsRefusedAt (trace_setup 3 2) orphan_ready 22 Refused.SlotBusy }
    ensures orphan_ready_goes { Goes (trace_setup 3 2) orphan_ready (λ w. point w 2) orphan_ready_points }
    ensures orphan_ready_ends { EndsAs (trace_setup 3 2) orphan_ready_returned 25 orphan_ready_shown }
    ensures orphan_ready_dropped_ends { EndsAs (trace_setup 3 2) orphan_ready_dropped 24 orphan_ready_dropped_shown }
    ensures orphan_ready_dropped_goes { Goes (trace_setup 3 2) orphan_ready_dropped (λ w.
        call_at w 2) orphan_ready_dropped_calls }
    ensures orphan_ready_dropped_discarded { IsAnsweredAt (trace_setup 3 2) orphan_ready_dropped 22 Answer.Discarded }
    ensures dropped_live_refused { IsRefusedAt (trace_setup 2 1) dropped_live 2 Refused.NotOrphan }
    ensures dropped_nothing_refused { IsRefusedAt (trace_setup 2 1) dropped_nothing 1 Refused.NoCall }
    ensures dropped_down_refused { IsRefusedAt (trace_setup 2 1) dropped_down 0 Refused.IsDown }
    ensures late_failure_refused { IsRefusedAt (trace_setup 3 1) late_failure 10 Refused.NoStep }
    ensures late_failure_failed { After (trace_setup 3 1) late_failure 3 (λ w. phase_at w 2 ≡ Some Phase.Failed) }
    ensures late_failure_discarded { IsAnsweredAt (trace_setup 3 1) late_failure 9 Answer.Discarded }
    ensures late_failure_goes { Goes (trace_setup 3 1) late_failure (λ w. point w 2) late_failure_points }
    ensures announced_too_late_ends { EndsAs (trace_setup 3 2) announced_too_late 21 announced_too_late_shown }
    ensures announced_too_late_goes { Goes (trace_setup 3 2) announced_too_late (λ w.
        shown_at w 1) announced_too_late_node }
    ensures announced_too_late_saw { After (trace_setup 3 2) announced_too_late 20 (λ w.
        Saw (trace_setup 3 2) w 1 Status.Election None) }
{}
