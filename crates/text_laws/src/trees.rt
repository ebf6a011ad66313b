//! Laws of the definitions that the contracts cite. The functions do nothing: their contracts are the laws.

ghost use Rattle.std.specs.Prelude.{◌≡◌, ◌↔◌, ◌≤◌, ℕ, List, take};
ghost use Rattle.board.specs.Board.{PlainBoard};
ghost use Rattle.rules.specs.Squares.{Ply};
ghost use Rattle.rules.specs.declared.goal.Goal.{Goal};
ghost use Rattle.wintree.specs.declared.flaws.Wrong.{Wrong};
ghost use Rattle.wintree.specs.Flaws.{IsFlaw};
ghost use Rattle.wintree.specs.Plan.{Plan};
ghost use Rattle.wintree.specs.Text.{TreeText};
ghost use Rattle.wintree.specs.Wins.{Wins};
ghost use Rattle.wintree.specs.Offset.{IsFarthest, IsDeep, open_braces};

/// Too deep means that within the bytes before the offset of the fault 32 braces are open at once.
pub fn deep_is_before_the_fault()
    ensures { (bytes : List ℕ) (g : ℕ) → IsFarthest bytes g
        → (IsDeep bytes ↔ ((k : ℕ) × (k ≤ g) × (open_braces (take k bytes) ≡ 32))) }
{}

/// A tree with a flaw doesn't win.
pub fn flaw_excludes_win()
    ensures { (goal : Goal) (b : PlainBoard) (plan : Plan) (line : List Ply) (wrong : Wrong)
        → IsFlaw goal b plan line wrong → ¬ Wins goal b plan }
{}

/// There is one offset of the fault at most.
pub fn one_offset()
    ensures { (bytes : List ℕ) (g h : ℕ) → IsFarthest bytes g → IsFarthest bytes h → g ≡ h }
{}

/// No text belongs to two trees.
#[tactic(auto, using(crate::proofs::OneText::one_text))]
pub fn one_tree()
    ensures { (bytes : List ℕ) (a b : Plan) → TreeText bytes a → TreeText bytes b → a ≡ b }
{}
