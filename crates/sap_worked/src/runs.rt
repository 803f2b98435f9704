//! Runs of small designs, worked out by hand from the rules.

ghost use Rattle.sap_worked.specs.Retagging.{CellRaised, CellLowered, CellMovedAside, CellRefusedByAuthority, CellRefusedByLevel, StateRaised, StateLowered, StateMovedAside, StateRefused, RetaggedChild};
ghost use Rattle.sap_worked.specs.Writing.{EnforcedWrite, RefusedByIndex, RefusedByValue, DynamicWrite};
ghost use Rattle.sap_worked.specs.Transfers.{LowersBelow, RaisedByTarget, RaisedWhereRefused, FallRaises, RefusedFallRaises, WithoutFall};
ghost use Rattle.sap_worked.specs.Handlers.{FallHandler, HandlerRaises, GotoHandler, GotoHandlerRaises, GotoHandlerOfEnforced, RisingRefusals, NoHandlerRuns};
ghost use Rattle.sap_worked.specs.Deciding.{AcceptedOrNot, AcceptedInGuard, RefusedInGuard, RefusedBeforeBlock, Decoded, FirstArm, NothingBehind};

/// What `setTag` of cells and of states does, on runs of small designs.
pub fn retagging()
    ensures cell_raised { CellRaised }
    ensures cell_lowered { CellLowered }
    ensures cell_moved_aside { CellMovedAside }
    ensures cell_refused_by_authority { CellRefusedByAuthority }
    ensures cell_refused_by_level { CellRefusedByLevel }
    ensures state_raised { StateRaised }
    ensures state_lowered { StateLowered }
    ensures state_moved_aside { StateMovedAside }
    ensures state_refused { StateRefused }
    ensures retagged_child { RetaggedChild }
{}

/// Writes to memories of both kinds.
pub fn writing()
    ensures enforced_write { EnforcedWrite }
    ensures refused_by_index { RefusedByIndex }
    ensures refused_by_value { RefusedByValue }
    ensures dynamic_write { DynamicWrite }
{}

/// What `goto` and `fall` raise and lower.
pub fn transfers()
    ensures lowers_below { LowersBelow }
    ensures raised_by_target { RaisedByTarget }
    ensures raised_where_refused { RaisedWhereRefused }
    ensures fall_raises { FallRaises }
    ensures refused_fall_raises { RefusedFallRaises }
    ensures without_fall { WithoutFall }
{}

/// Handlers of refused transfers, and several refusals in one cycle.
pub fn handlers()
    ensures fall_handler { FallHandler }
    ensures handler_raises { HandlerRaises }
    ensures goto_handler { GotoHandler }
    ensures goto_handler_raises { GotoHandlerRaises }
    ensures goto_handler_of_enforced { GotoHandlerOfEnforced }
    ensures rising_refusals { RisingRefusals }
    ensures no_handler_runs { NoHandlerRuns }
{}

/// Commands with `then`, and `case`.
pub fn decisions()
    ensures accepted_or_not { AcceptedOrNot }
    ensures accepted_in_guard { AcceptedInGuard }
    ensures refused_in_guard { RefusedInGuard }
    ensures refused_before_block { RefusedBeforeBlock }
    ensures decoded { Decoded }
    ensures first_arm { FirstArm }
    ensures nothing_behind { NothingBehind }
{}
