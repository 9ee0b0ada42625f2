//! The law of sessions that interleave and their calls. The function computes nothing: its contract is the law.
ghost use Rattle.vacation_core.specs.Rooms.{SessionsFindRoom};

/// Over every list of events of any number of clients, each of whose transactions is the session of an allowed action, no request of a
/// client that begins no declared reader is refused as NoSuch or TooLong, whatever the others do.
pub fn sessions_find_room()
    ensures { SessionsFindRoom }
{}
