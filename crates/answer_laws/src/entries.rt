//! Laws of the table's entries. The functions do nothing: their contracts are the laws.
ghost use Rattle.answer_laws.specs.Entries.{OneEntry, OnePacking, KeyIsQuestion, QuestionIsKey, HitIsRight, SlotOfKey, TestIsPreference};

/// No two entries have one packing, and none has two. The function does nothing: its contract is the law.
pub fn packing_laws()
    ensures entry { OneEntry }
    ensures words { OnePacking }
{}

/// The key says what is asked, and nothing more. What a hit's words say is right of what was asked. The slot depends on the
/// key alone.
pub fn key_laws()
    ensures asked { KeyIsQuestion }
    ensures same { QuestionIsKey }
    ensures hit { HitIsRight }
    ensures slot { SlotOfKey }
{}

/// The test by which a table of entries prefers is the preference of packings.
pub fn preference_laws()
    ensures { TestIsPreference }
{}
