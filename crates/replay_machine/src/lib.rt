// Document 01, 'The millisecond machine': the record that is stored is the machine's, written by the record writer after a cut list or by
// a replay after its acts. The crate has statements; its functions compute nothing.
#![tactic(auto)]

ghost use Rattle.replay_machine.specs.ReplayMachine.{ReplayMachine};
ghost use Rattle.replay_machine.specs.Stored.{StoredRecord};

// A replay's record is the millisecond machine's after its acts.
pub fn replay_record()
    ensures { ReplayMachine }
{}

// The record writer accepts the record of every player that a cut list gives, and writes the machine's.
pub fn stored_record()
    ensures { StoredRecord }
{}
