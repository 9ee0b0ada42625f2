//! What is unchanged of a seat's bases over the turns on words.
ghost use Rattle.tx_turns.specs.Laws.{StarvesKeep, WordsKeep};

use actor_parts::word_laws::steps_as_worlds;
use seq_model::Value;
use tx_actor::laws::copies_by_stage;
use tx_actor::turn_laws::events_keep_copies;

/// A turn on the words, and a failed allocation, leave what a seat has out of the table, and its actor has of collections what its next
/// stage asks. The first value store asks more, and is `commit`; so do the loads for a call (`load_word`).
pub fn turns_keep_own<V: Value>()
    ensures words { WordsKeep V }
    ensures starves { StarvesKeep V }
{
    steps_as_worlds::<V>();
    events_keep_copies::<V>();
    copies_by_stage::<V>();
}
