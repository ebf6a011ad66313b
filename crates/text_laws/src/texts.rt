//! Laws of the texts of positions and of trees. The functions do nothing: their contracts are the laws.
ghost use Rattle.text_laws.specs.Texts.{PositionHasText, PositionHasOneText, TextHasOneBoard, TextHasOneFault, NoFaultOfPosition, TextHasOneSoundFault, NoFaultOfSound, PlanHasText, TextHasOnePlan, TextHasOneTreeFault, NoFaultOfTree};

/// A position has one text. A text is of one board, and has one fault, but none where it is a position's.
pub fn position_text_laws()
    ensures some { PositionHasText }
    ensures one { PositionHasOneText }
    ensures board { TextHasOneBoard }
    ensures fault { TextHasOneFault }
    ensures no_fault { NoFaultOfPosition }
{}

/// A position whose side that is not to move is out of check has one text; a text is of one such board, and has one fault, but
/// none where it is such a position's.
pub fn sound_text_laws()
    ensures fault { TextHasOneSoundFault }
    ensures no_fault { NoFaultOfSound }
{}

/// A plan has a text. A text is of one plan, and has one fault, but none where it is a plan's that is read.
pub fn tree_text_laws()
    ensures some { PlanHasText }
    ensures plan { TextHasOnePlan }
    ensures fault { TextHasOneTreeFault }
    ensures no_fault { NoFaultOfTree }
{}
