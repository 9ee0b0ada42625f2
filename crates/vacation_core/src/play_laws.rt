//! Laws of events. The functions compute nothing: their contracts are the laws.
ghost use Rattle.vacation_core.specs.Laws.{PlaysAreSerial, PlaysHoldTables};
ghost use Rattle.vacation_core.specs.Unmet.{PlaysFindRoom};

/// Over every list of events of any clients, from the state of balanced tables: the sessions that committed were answered as their actions
/// are, one after another, in commit order, each client's in its own; where no commit is half done the world holds what they leave,
/// balanced; and no session aborts on the replies it gets.
pub fn plays_are_serial()
    ensures { PlaysAreSerial }
{}

/// Over every list of events of any clients, from the state of balanced tables: words and collections hold tables at each moment. Where a
/// commit is half done they need not be balanced, since some of what it changes is changed already and some is not.
pub fn plays_hold_tables()
    ensures { PlaysHoldTables }
{}

/// Over every list of events of any clients, from the state of balanced tables: no call of a session is refused, so none aborts
/// its transaction for one; and no session ends as NoSuch or TooLong, but for a start at a client that there is none of.
pub fn plays_find_room()
    ensures { PlaysFindRoom }
{}
