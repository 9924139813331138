//! What holds of the records of all byte strings, so that a contract may speak of them.
ghost use Rattle.config_decode.specs.Laws.{PayloadsAreReadAsOne, MessagesSayTheSameAnywhere, PassedMessagesAreWhole, TheTopIsPassed, FieldMatchersAreWhole, FieldTestsAreWhole};

/// The payloads of messages are joined as bytes and read as one, and a message says the same wherever it stands.
/// It does nothing when it runs.
pub fn payloads_are_read_as_one()
    ensures as_one { PayloadsAreReadAsOne }
    ensures anywhere { MessagesSayTheSameAnywhere }
{}

/// Where the walk of a configuration has no fault, neither has the message at the top, nor any listed message inside,
/// at any depth. So the payloads of each field of such a message that holds messages have no fault by themselves, and
/// are read as one. It does nothing when it runs.
pub fn the_walk_passes_whole_messages()
    ensures whole { PassedMessagesAreWhole }
    ensures top { TheTopIsPassed }
{}

/// Where the walk of a configuration passes a tree of field numbers or a test, it is read to its last level: with more
/// levels than a hundred it would say the same. It does nothing when it runs.
pub fn passed_trees_are_read_to_their_end()
    ensures field_matchers { FieldMatchersAreWhole }
    ensures field_tests { FieldTestsAreWhole }
{}
