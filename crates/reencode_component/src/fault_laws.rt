//! Laws of bytes that are at fault.
ghost use Rattle.reencode_component.specs.ComponentFronts.{
  FaultIsUnread,
  HasFront,
  OneFront,
  ReadsOrFails,
};
ghost use Rattle.reencode_component.specs.ModuleLaws.{ModuleTells};

use reencode_hooks::ReencodeIndices;

/// Bytes that begin with the header of a component, round which at most 200 scopes are open, have one front: the sections that are
/// read and stand behind the header side by side, up to where the bytes end or no such section begins. Where they end there it is
/// their reading, and else that is their fault. That they have a front, and without a reading a fault, is told by refuting that they
/// have none; that they have no two fronts, and with a fault no reading, outright.
pub fn component_front_is_one()
    ensures some { HasFront }
    ensures either { ReadsOrFails }
    ensures none { FaultIsUnread }
    ensures one { OneFront }
{}

/// What `parse_core_module` answers, of a call with its clauses, where the reencoder keeps the defaults: in terms of the reading, or of the
/// fault of bytes that have none.
pub fn core_module_tells<T: ReencodeIndices>(_reencoder: &T)
    ensures { ModuleTells T.ReencodeIndices }
{}
