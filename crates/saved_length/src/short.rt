//! How long saved forms are, so that a contract may say it.
ghost use Rattle.std.specs.Prelude.{◌≡◌, ℕ, ℤ, ◌+◌, ◌≤◌, Bool, List, ◌∷◌, length};
ghost use Rattle.atom_record.specs.declared.atom.Atom.{Atom};
ghost use Rattle.config_types.specs.declared.matcher.SimpleMatcher.{SimpleMatcher};
ghost use Rattle.flat_form.specs.ItemSpelling.{spelled_items};
ghost use Rattle.flat_form.specs.declared.item.Item.TheVariants.{Num, Chunk};
ghost use Rattle.session_frames.specs.declared.frame.Frame.{Frame};
ghost use Rattle.metric_meaning.specs.Histories.{History};
ghost use Rattle.hub_meaning.specs.Acceptance.{LiveConfig};
ghost use Rattle.hub_meaning.specs.LiveConfigs.{install_bytes, history_of};
ghost use Rattle.hub_meaning.specs.SessionLog.{own};
ghost use Rattle.client_engine.specs.InstanceStands.{InstanceStandsFor};
ghost use Rattle.client_engine.specs.Running.{Running, linked_of};
ghost use Rattle.client_engine.specs.SavedInstances.{IsSavedInstance, instance_items};
ghost use Rattle.saved_weight.specs.HistoryWeights.{history_weight};
ghost use Rattle.saved_weight.specs.Weigh.{live_weight};

/// An instance that stands for a history is saved in 36 bytes at most besides what the history weighs,
/// however many frames there were; and with its client, its id and its bytes in no more than what is live
/// there weighs. It does nothing when it runs.
pub fn saved_forms_are_short()
    ensures instances { (it : Running) (history : History) → InstanceStandsFor it history
        → IsSavedInstance (linked_of it) it
        → length (spelled_items (instance_items it)) ≤ 36 + history_weight history }
    ensures lives { (says : SimpleMatcher → Atom → Bool) (frames : List Frame) (uid : ℤ)
        (config : LiveConfig) (one other : ℕ) (it : Running)
        → InstanceStandsFor it (history_of says uid (own uid frames) config)
        → IsSavedInstance (linked_of it) it
        → let bytes = install_bytes (own uid frames) config in
        length (spelled_items (Num one ∷ Num other ∷ Chunk bytes ∷ instance_items it))
        ≤ live_weight says frames (uid, config) }
{}
