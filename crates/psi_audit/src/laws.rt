//! Laws of verdicts. Each function does nothing: its contract is the law.
ghost use Rattle.psi_audit.specs.Laws.{DifferencesLieInside, SlotsHaveFaults};

/// A verdict on slots is never want of memory.
pub fn slots_have_faults()
    ensures { SlotsHaveFaults }
{}

/// The first difference of recorded frames from those of the session lies inside both, since both end with their one
/// end frame.
pub fn differences_lie_inside()
    ensures { DifferencesLieInside }
{}
