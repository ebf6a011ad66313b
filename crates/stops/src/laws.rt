//! A law of the rule. The function does nothing: its contract is the law.
ghost use Rattle.std.specs.Prelude.{ℕ};
ghost use Rattle.atomic_table.specs.Table.{State};
ghost use Rattle.stops.specs.declared.views.RequestView.{RequestView};
ghost use Rattle.stops.specs.Promise.{AreMade};

/// No seat hears of a request that wasn't made.
pub fn requests_are_made()
    ensures { (s : State (Unit {0}) RequestView) → AreMade s }
{}
