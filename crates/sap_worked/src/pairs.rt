//! Pairs that agree at a level and pairs that don't, each by one part of the definitions.

ghost use Rattle.sap_worked.specs.Agreeing.{RegistersAbove, EnforcedRegistersAbove, CellsAbove, MemoriesAbove, StateLevelsAbove, ChildrenAbove, BelowTheSeen, InactiveChildren, InactiveLevels, InputsAside, AgreeBelow};
ghost use Rattle.sap_worked.specs.Apart.{RegisterNumber, RegisterLevel, RegisterSeenInOne, CellNumber, NextCellNumber, MemoryNumber, NextMemoryNumber, MemoryLevel, NextMemoryLevel, MemorySeenInOne, EnforcedRegisterLevel, EnforcedCellLevel, NextEnforcedCellLevel, InactiveStateLevel, ActiveStateLevel, OtherChild, OtherChildBelow, ChildLevel, ChildLevelBelow, ChildSeenInOne, OtherChildSeenInOne};
ghost use Rattle.sap_worked.specs.Streams.{InputsAlike, InputNumber, InputLevel, InputSeenInOne, InputTooMany, StreamsAlike, LaterCycle, CycleTooMany, CycleLater, StreamsAgreeBelow, RefusalsAlike, RefusedSite, RefusedLevel, RefusedSeenInOne, RefusedTooMany, RefusalsAgreeBelow};

/// Two states of one design that agree at a level, though they differ.
pub fn states_agree()
    ensures registers_above { RegistersAbove }
    ensures enforced_registers_above { EnforcedRegistersAbove }
    ensures cells_above { CellsAbove }
    ensures memories_above { MemoriesAbove }
    ensures state_levels_above { StateLevelsAbove }
    ensures children_above { ChildrenAbove }
    ensures below_the_seen { BelowTheSeen }
    ensures inactive_children { InactiveChildren }
    ensures inactive_levels { InactiveLevels }
    ensures inputs_aside { InputsAside }
    ensures agree_below { AgreeBelow }
{}

/// Two states that differ in one thing alone, and don't agree.
pub fn states_apart()
    ensures register_number { RegisterNumber }
    ensures register_level { RegisterLevel }
    ensures register_seen_in_one { RegisterSeenInOne }
    ensures cell_number { CellNumber }
    ensures next_cell_number { NextCellNumber }
    ensures memory_number { MemoryNumber }
    ensures next_memory_number { NextMemoryNumber }
    ensures memory_level { MemoryLevel }
    ensures next_memory_level { NextMemoryLevel }
    ensures memory_seen_in_one { MemorySeenInOne }
    ensures enforced_register_level { EnforcedRegisterLevel }
    ensures enforced_cell_level { EnforcedCellLevel }
    ensures next_enforced_cell_level { NextEnforcedCellLevel }
    ensures inactive_state_level { InactiveStateLevel }
    ensures active_state_level { ActiveStateLevel }
    ensures other_child { OtherChild }
    ensures other_child_below { OtherChildBelow }
    ensures child_level { ChildLevel }
    ensures child_level_below { ChildLevelBelow }
    ensures child_seen_in_one { ChildSeenInOne }
    ensures other_child_seen_in_one { OtherChildSeenInOne }
{}

/// Inputs of a cycle and streams, which agree or don't.
pub fn streams_compared()
    ensures inputs_alike { InputsAlike }
    ensures input_number { InputNumber }
    ensures input_level { InputLevel }
    ensures input_seen_in_one { InputSeenInOne }
    ensures input_too_many { InputTooMany }
    ensures streams_alike { StreamsAlike }
    ensures later_cycle { LaterCycle }
    ensures cycle_too_many { CycleTooMany }
    ensures cycle_later { CycleLater }
    ensures streams_agree_below { StreamsAgreeBelow }
{}

/// Refusals of a cycle, which agree or don't.
pub fn refusals_compared()
    ensures refusals_alike { RefusalsAlike }
    ensures refused_site { RefusedSite }
    ensures refused_level { RefusedLevel }
    ensures refused_seen_in_one { RefusedSeenInOne }
    ensures refused_too_many { RefusedTooMany }
    ensures refusals_agree_below { RefusalsAgreeBelow }
{}
