//! In which order the entries of the applied list were appended to the logs of leaders. Nothing here runs: each law is
//! the promise of an empty function.
#![tactic(auto)]

ghost use Rattle.append_safety.specs.Appending.{
  AppendedInOrder,
  AppliedIsFirst,
  ChosenAppended,
  KeptAgrees,
  NewIsLater,
};

pub mod refusals;

/// Each applied entry was appended by a leader of its term, in a step of the run. When a leader appended an entry, each
/// entry before it had been appended too: by this step or an earlier one of the run. A log between two steps that are
/// kept is the same as the applied entries up to each index at which both have one term; so an applied entry of a
/// leader's term at the index at which this leader appended one is the very entry that it appended. What is appended
/// after some log had an entry is applied after this entry, if both are; and after all that was applied then.
pub fn appended_in_order()
    ensures each { ChosenAppended }
    ensures order { AppendedInOrder }
    ensures kept { KeptAgrees }
    ensures later { NewIsLater }
    ensures applied { AppliedIsFirst }
{}
