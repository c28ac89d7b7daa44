// Lists of events, applied in turn.
ghost use Rattle.std.specs.Prelude.{◌≡◌, ◌+◌, ◌<◌, ◌++◌, ◌⊎◌, OnOk, OnErr, length, vec_len, vec_capacity};
ghost use Rattle.tx_machine.specs.Runs.{replies as replies_to, state_after};
ghost use Rattle.tx_machine.specs.Driven.{StopsAt};

use crate::event::Event;
use crate::network::Network;
use crate::reply::Reply;
use std::alloc::Allocator;
use tx_text::NoMemory;

/// Applies the events in turn, and appends the replies. `Err` means out of memory: for the room of
/// all replies, before anything is done, or at an event that takes memory and would not be refused.
/// Then the replies to the events before it were appended, and the network is as they left it.
pub fn drive<N: Network, B: Allocator>(
    net: &mut N,
    events: &[Event],
    replies: &mut Vec<Reply, B>,
) -> Result<(), NoMemory>
    ensures plan { N.plan net.new ≡ N.plan net.old }
    ensures ok { OnOk result ((replies.new.items
        ≡ replies.old.items ++ replies_to (N.plan net.old) (N.state net.old) events.now)
        × (N.state net.new ≡ state_after (N.plan net.old) (N.state net.old) events.now)) }
    ensures err { OnErr result
        (((vec_capacity replies.old < vec_len replies.old + length events.now)
        × (net.new ≡ net.old) × (replies.new.items ≡ replies.old.items)) ⊎ StopsAt (N.plan net.old)
        (N.state net.old) events.now replies.old.items (N.state net.new) replies.new.items) }
{
    replies.reserve(events.len())?;
    let mut at = 0;
    while at < events.len() {
        let reply = net.apply(events[at])?;
        replies.push_reserved(reply);
        at += 1;
    }
    Ok(())
}
