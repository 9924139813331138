//! What holds of every linked configuration.
ghost use Rattle.std.specs.Prelude.{◌≡◌, ℤ, None};
ghost use Rattle.config_types.specs.declared.config.Config.{Config};
ghost use Rattle.config_links.specs.Verdict.{verdict, linked_form};
ghost use Rattle.config_links.specs.declared.linked.Linked.{Linked};
ghost use Rattle.config_links.specs.SoundConfig.{IsSoundConfig};
ghost use Rattle.config_links.specs.SoundLaws.{AreSoundAtPlaces, ReferencesEnd, HaveChildren, HaveTheirLeaves};

/// A configuration without a fault has a sound linked form, for whatever client.
pub fn linked_forms_are_sound()
    ensures { (config : Config) (uid : ℤ) →
        verdict config ≡ None → IsSoundConfig (linked_form config uid) }
{}

/// In a sound configuration what stands at a place is sound.
pub fn each_entity_is_sound()
    ensures { (linked : Linked) → IsSoundConfig linked → AreSoundAtPlaces linked }
{}

/// In a sound configuration references lead to places that are there, and no list of them is as long as there are
/// places.
pub fn references_end()
    ensures { (linked : Linked) → IsSoundConfig linked → ReferencesEnd linked }
{}

/// In a sound configuration a combination has a child.
pub fn combinations_have_children()
    ensures { (linked : Linked) → IsSoundConfig linked → HaveChildren linked }
{}

/// In a sound configuration the keys of a predicate's table have as many leaves as its dimensions.
pub fn tables_have_their_leaves()
    ensures { (linked : Linked) → IsSoundConfig linked → HaveTheirLeaves linked }
{}
