//! Small designs and their faults of shape.

ghost use Rattle.sap_shape.specs.Examples.{TwiceWritten, InTwoBranches, NotClosed, NotLast, WithoutElse, FallsInLeaf, ToNoSibling, NeverRefused, DynamicRetagged, ItselfRetagged, NeverRefusedWithThen, WrittenInEitherBlock, WrittenBehindABlock, GotoWithThen, ToNoSiblingWithThen, FallsInLeafWithThen, OneArmNotClosed, DecidedIsWellFormed};
ghost use Rattle.sap_shape.specs.Paths.{NoneWithoutFall, OneInHandler};

/// The faults of small designs, worked out.
pub fn worked_faults()
    ensures twice_written { TwiceWritten }
    ensures in_two_branches { InTwoBranches }
    ensures not_closed { NotClosed }
    ensures not_last { NotLast }
    ensures without_else { WithoutElse }
    ensures falls_in_leaf { FallsInLeaf }
    ensures to_no_sibling { ToNoSibling }
    ensures never_refused { NeverRefused }
    ensures dynamic_retagged { DynamicRetagged }
    ensures itself_retagged { ItselfRetagged }
    ensures none_without_fall { NoneWithoutFall }
    ensures one_in_handler { OneInHandler }
{}

/// The faults of small designs of version 2, worked out, and one that has none.
pub fn worked_faults_of_version_2()
    ensures never_refused { NeverRefusedWithThen }
    ensures written_in_either_block { WrittenInEitherBlock }
    ensures written_behind_a_block { WrittenBehindABlock }
    ensures goto_with_then { GotoWithThen }
    ensures to_no_sibling { ToNoSiblingWithThen }
    ensures falls_in_leaf { FallsInLeafWithThen }
    ensures one_arm_not_closed { OneArmNotClosed }
    ensures well_formed { DecidedIsWellFormed }
{}
