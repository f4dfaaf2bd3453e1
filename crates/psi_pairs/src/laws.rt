//! Laws of paired lines. Each function does nothing: its contract is the law.
ghost use Rattle.psi_pairs.specs.Laws.{OpenedColumnsMakeValues};

/// A sender that opens its columns in place makes the same values.
pub fn opened_columns_make_values()
    ensures { OpenedColumnsMakeValues }
{}
