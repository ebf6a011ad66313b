//! Laws over the definitions alone.
ghost use Rattle.entry.specs.Laws.{RightAreConsistent, MeetingIsRight, YesIsRight, NoIsRight};

/// Two right intervals of one question can be met, and what they say together is right. A search's yes for n plies and its no
/// are right intervals.
pub fn interval_laws()
    ensures consistent { RightAreConsistent }
    ensures right { MeetingIsRight }
    ensures yes { YesIsRight }
    ensures no { NoIsRight }
{}
