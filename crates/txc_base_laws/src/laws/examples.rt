// Examples of lawful logs, of unlawful logs, and of lists that break a law. The checker computes each clause.
ghost use Rattle.std.specs.Prelude.{◌≡◌, ◌++◌, Some, None, [], ◌∷◌};
ghost use Rattle.txc_base.specs.Channel.{opening};
ghost use Rattle.txc_base.specs.declared.limits.TheConstants.{MAX_READERS};
ghost use Rattle.txc_base.specs.Counts.{IsCounted};
ghost use Rattle.txc_base.specs.Examples.{w, b};
ghost use Rattle.txc_base.specs.InOrder.{IsInOrder};
ghost use Rattle.txc_base.specs.Log.{state, entries};
ghost use Rattle.txc_base.specs.Next.{IsNext};
ghost use Rattle.txc_base.specs.Once.{IsOnce};
ghost use Rattle.txc_base.specs.StaysClosedLaw.{StaysClosed};
ghost use Rattle.txc_base.specs.declared.act.Act.TheVariants.{Wrote, Took, PutBack, Closed, Begun, Cloned};
ghost use Rattle.txc_base.specs.declared.kind.Kind.TheVariants.{Queue, Bounded, Cast, MQueue, BMQueue, MCast};
ghost use Rattle.txc_base_laws.specs.Examples.{by, logged, left, GetsItsDue};

fn the_logs_of_worked_queues_leave_their_lists()
    ensures write_then_read { left Queue 0 1 (Wrote (w 0 7) ∷ Took 0 (w 0 7) ∷ []) ≡ Some ([] ∷ []) }
    ensures full_write_takes_the_read { left Bounded 1 1 (Wrote (w 0 1) ∷ Took 0 (w 0 1) ∷ []) ≡ Some ([] ∷ []) }
    ensures closable_bound_is_passed_by_a_put_back { left BMQueue 1 1 (Wrote (w 0 1) ∷ PutBack 0 (b 0 9)
        ∷ Took 0 (b 0 9) ∷ []) ≡ Some ((w 0 1 ∷ []) ∷ []) }
    ensures closed_queue_is_read_to_its_end { left MQueue 0 1 (Wrote (w 0 1) ∷ Closed ∷ Took 0 (w 0 1) ∷ [])
        ≡ Some ([] ∷ []) }
    ensures try_forms_tell_empty_from_closed { left BMQueue 1 1 (Wrote (w 0 1) ∷ Closed ∷ [])
        ≡ Some ((w 0 1 ∷ []) ∷ []) }
    ensures put_back_at_the_bound_stalls { left Bounded 1 1 (Wrote (w 0 1) ∷ []) ≡ Some ((w 0 1 ∷ []) ∷ []) }
    ensures retry_takes_the_other_branch { left Queue 0 1 [] ≡ Some ([] ∷ []) }
    ensures last_moves_an_item { left Queue 0 1 (Wrote (w 0 5) ∷ []) ≡ Some ((w 0 5 ∷ []) ∷ []) }
    ensures refused_flush { left Queue 0 1 (Wrote (w 0 1) ∷ Wrote (w 1 2) ∷ Took 0 (w 0 1) ∷ [])
        ≡ Some ((w 1 2 ∷ []) ∷ []) }
{}

fn the_logs_of_worked_broadcasts_leave_their_lists()
    ensures duplicate_gets_what_follows { left Cast 0 1 (Wrote (w 0 1) ∷ Begun 1 ∷ Wrote (w 1 2) ∷ [])
        ≡ Some ((w 0 1 ∷ w 1 2 ∷ []) ∷ (w 1 2 ∷ []) ∷ []) }
    ensures clone_takes_the_put_back { left Cast 0 1 (Wrote (w 0 1) ∷ Wrote (w 1 2) ∷ Took 0 (w 0 1) ∷ PutBack 0 (b 0 9)
        ∷ Cloned 0 1 ∷ Took 1 (b 0 9) ∷ [])
        ≡ Some ((b 0 9 ∷ w 1 2 ∷ []) ∷ (w 1 2 ∷ []) ∷ []) }
    ensures no_reader_stops { left Cast 0 0 (Wrote (w 0 1) ∷ Begun 0 ∷ Wrote (w 1 2) ∷ Took 0 (w 1 2) ∷ [])
        ≡ Some ([] ∷ []) }
    ensures nested_alternatives { left Cast 0 1 (Wrote (w 0 7) ∷ PutBack 0 (b 0 6) ∷ Begun 1 ∷ [])
        ≡ Some ((b 0 6 ∷ w 0 7 ∷ []) ∷ [] ∷ []) }
    ensures closed_broadcast_is_read { left MCast 0 1 (Begun 1 ∷ Wrote (w 0 1) ∷ Closed ∷ Took 1 (w 0 1)
        ∷ Took 0 (w 0 1) ∷ []) ≡ Some ([] ∷ [] ∷ []) }
{}

fn a_log_with_an_unlawful_entry_leaves_nothing()
    ensures taken_twice { left Queue 0 1 (Wrote (w 0 7) ∷ Took 0 (w 0 7) ∷ Took 0 (w 0 7) ∷ []) ≡ None }
    ensures taken_out_of_turn { left Queue 0 1 (Wrote (w 0 7) ∷ Wrote (w 1 8) ∷ Took 0 (w 1 8) ∷ []) ≡ None }
    ensures taken_with_another_body { left Queue 0 1 (Wrote (w 0 7) ∷ Took 0 (w 0 8) ∷ []) ≡ None }
    ensures taken_by_no_reader { left Queue 0 1 (Wrote (w 0 7) ∷ Took 1 (w 0 7) ∷ []) ≡ None }
    ensures numbered_twice { left Queue 0 1 (Wrote (w 0 7) ∷ Wrote (w 0 8) ∷ []) ≡ None }
    ensures put_back_reaches_all_readers { left Cast 0 2 (PutBack 0 (b 0 9) ∷ Took 1 (b 0 9) ∷ []) ≡ None }
    ensures written_after_the_closing { left MQueue 0 1 (Closed ∷ Wrote (w 0 7) ∷ []) ≡ None }
    ensures closed_takes_a_put_back { left MQueue 0 1 (Closed ∷ PutBack 0 (b 0 7) ∷ []) ≡ None }
    ensures closed_twice { left MCast 0 1 (Closed ∷ Closed ∷ []) ≡ None }
    ensures closed_without_closing { left Queue 0 1 (Closed ∷ []) ≡ None }
    ensures written_at_the_bound { left Bounded 1 1 (Wrote (w 0 1) ∷ Wrote (w 1 2) ∷ []) ≡ None }
    ensures written_at_the_closable_bound { left BMQueue 1 1 (Wrote (w 0 1) ∷ Wrote (w 1 2) ∷ []) ≡ None }
    ensures put_back_at_the_bound { left Bounded 1 1 (Wrote (w 0 1) ∷ PutBack 0 (b 0 9) ∷ []) ≡ None }
    ensures clone_loses_a_put_back { left Cast 0 1 (Wrote (w 0 1) ∷ PutBack 0 (b 0 9) ∷ Cloned 0 1 ∷ Took 1 (w 0 1)
        ∷ []) ≡ None }
    ensures queue_gets_a_reader { left Queue 0 1 (Begun 1 ∷ []) ≡ None }
    ensures reader_out_of_turn { left Cast 0 1 (Begun 2 ∷ []) ≡ None }
    ensures one_reader_too_many { left Cast 0 MAX_READERS (Begun MAX_READERS ∷ []) ≡ None }
    ensures clone_of_no_reader { left Cast 0 1 (Cloned 1 1 ∷ []) ≡ None }
{}

fn an_item_is_of_the_seat_that_made_it_whatever_the_stamp()
    ensures of_its_seat { state (Some (opening Queue 0 1))
        (entries (by 0 5) (Wrote (w 0 4) ∷ []) ++ entries (by 1 3) (Took 0 (w 0 4) ∷ []))
        ≡ Some (record (opening Queue 0 1) { written = 1 }) }
    ensures of_another_seat { state (Some (opening Queue 0 1)) (entries (by 1 5) (Wrote (w 0 4) ∷ [])) ≡ None }
{}

fn each_reader_is_served_from_where_it_began()
    ensures from_the_opening { GetsItsDue (Wrote (w 0 1) ∷ Took 0 (w 0 1) ∷ Wrote (w 1 2) ∷ []) 0 (w 1 2 ∷ [])
        (w 0 1 ∷ w 1 2 ∷ []) }
    ensures duplicate { GetsItsDue (Wrote (w 0 1) ∷ Begun 1 ∷ Wrote (w 1 2) ∷ []) 1 (w 1 2 ∷ []) (w 1 2 ∷ []) }
    ensures clone_with_a_put_back { GetsItsDue (Wrote (w 0 1) ∷ Wrote (w 1 2) ∷ Took 0 (w 0 1) ∷ PutBack 0 (b 0 9)
        ∷ Cloned 0 1 ∷ Took 1 (b 0 9) ∷ [])
        1 (w 1 2 ∷ []) (w 1 2 ∷ []) }
    ensures clone_of_a_clone { GetsItsDue (Wrote (w 0 1) ∷ Wrote (w 1 2) ∷ Wrote (w 2 3) ∷ Took 0 (w 0 1)
        ∷ Cloned 0 1 ∷ Took 1 (w 1 2) ∷ Cloned 1 2 ∷ [])
        2 (w 2 3 ∷ []) (w 2 3 ∷ []) }
    ensures clone_of_a_duplicate { GetsItsDue (Wrote (w 0 1) ∷ Begun 1 ∷ Wrote (w 1 2) ∷ Took 1 (w 1 2)
        ∷ Cloned 1 2 ∷ Wrote (w 2 3) ∷ []) 2 (w 2 3 ∷ []) (w 2 3 ∷ []) }
{}

fn lists_that_are_not_fair_are_refused()
    ensures an_item_is_lost { IsInOrder (logged (Wrote (w 0 1) ∷ [])) ([] ∷ []) → ⊥ }
    ensures items_change_places { IsInOrder (logged (Wrote (w 0 1) ∷ Wrote (w 1 2) ∷ [])) ((w 1 2 ∷ w 0 1 ∷ []) ∷ [])
        → ⊥ }
    ensures duplicate_begins_at_the_first { IsInOrder (logged (Wrote (w 0 1) ∷ Begun 1 ∷ []))
        ((w 0 1 ∷ []) ∷ (w 0 1 ∷ []) ∷ []) → ⊥ }
    ensures clone_skips_an_item { IsInOrder (logged (Wrote (w 0 1) ∷ Wrote (w 1 2) ∷ Took 0 (w 0 1) ∷ Cloned 0 1 ∷ []))
        ((w 1 2 ∷ []) ∷ [] ∷ []) → ⊥ }
{}

fn lists_and_logs_that_break_another_law_are_refused()
    ensures put_back_goes_to_the_back { IsNext (logged (Wrote (w 0 1) ∷ PutBack 0 (b 0 9) ∷ []))
        ((w 0 1 ∷ b 0 9 ∷ []) ∷ []) → ⊥ }
    ensures put_back_is_passed_over { IsNext (logged (Wrote (w 0 1) ∷ PutBack 0 (b 0 9) ∷ Took 0 (w 0 1) ∷ []))
        ((b 0 9 ∷ []) ∷ []) → ⊥ }
    ensures written_after_the_closing { StaysClosed (logged (Closed ∷ Wrote (w 0 1) ∷ [])) → ⊥ }
    ensures taken_twice { IsOnce (logged (Wrote (w 0 1) ∷ Took 0 (w 0 1) ∷ Took 0 (w 0 1) ∷ [])) [] → ⊥ }
    ensures an_item_is_lost { IsOnce (logged (Wrote (w 0 1) ∷ [])) [] → ⊥ }
    ensures an_item_is_made { IsOnce (logged []) (b 0 9 ∷ []) → ⊥ }
    ensures not_counted { IsCounted (logged (Wrote (w 0 1) ∷ Wrote (w 1 2) ∷ [])) (w 0 1 ∷ []) → ⊥ }
{}
