//! The collections that a transaction has written.
ghost use Rattle.std.specs.Prelude.{◌≡◌, IfOk, OnOk};
ghost use Rattle.actor_parts.specs.Blocks.{homes_in, is_first, with_home};

use crate::blocks::Blocks;
use std::alloc::AllocError;
use std::collections::VecDeque;
use tx_sets::WriteSet;

fn is_first(homes: &VecDeque<u32>, k: u32) -> bool
    ensures { result ≡ is_first k homes.now.items }
{
    if homes.is_empty() {
        return false;
    }
    k == homes[0]
}

/// One more, below the others, where it is not the first of them.
fn add_home(homes: &mut VecDeque<u32>, home: Option<u32>) -> Result<(), AllocError>
    ensures { OnOk result (homes.new.items ≡ with_home home homes.old.items) }
{
    if let Some(k) = home {
        if is_first(homes, k) {
            return Ok(());
        }
        homes.push_front(k)?;
    }
    Ok(())
}

/// The collections with a written location, rising, in place of what the list held. The written locations rise, so each one's collection is
/// compared with the last one found alone. Where an allocation fails, the list is dropped.
pub fn written_homes(
    list: VecDeque<u32>,
    blocks: &Blocks,
    writes: &WriteSet,
) -> Result<VecDeque<u32>, AllocError>
    ensures { IfOk result (λ homes. homes.items ≡ homes_in blocks.now writes.now.entries) }
{
    let entries = writes.in_order();
    let mut homes = list;
    homes.clear();
    let mut i = entries.len();
    while i > 0 {
        i -= 1;
        let home = blocks.home_of(entries[i].0);
        add_home(&mut homes, home)?;
    }
    Ok(homes)
}
