ghost use Rattle.eqtb_save.specs.Laws.{OthersLeaveValues};

/// Where other parts change which lists they hold, each value keeps its tokens.
pub fn others_leave_values()
    ensures { OthersLeaveValues }
{}
