//! Laws of sessions that interleave. The functions compute nothing: their contracts are the laws.
ghost use Rattle.vacation_core.specs.Alone.{AloneIsInOrder};
ghost use Rattle.vacation_core.specs.Serial.{SessionsAreSerial};

/// Over every list of events of any number of clients, each of whose transactions is the session of an allowed action, from the state
/// of balanced tables: the committed sessions, in commit order, were answered as their actions are, one after another; where no
/// commit is half done the world holds the state of the tables that they leave, balanced; and no session aborts on its replies.
pub fn sessions_are_serial()
    ensures { SessionsAreSerial }
{}

/// Where one client alone does anything, and has no transaction now, the records are its sessions, one for each action that it committed,
/// in its order, each answered as its action is; and the world holds the state of the tables that they leave, balanced.
pub fn alone_is_in_order()
    ensures { AloneIsInOrder }
{}
