// Twins: plays scripts through the plain network and through the engine, and compares them. After
// each event there has to be the same reply, the same tickets, and the same number of open calls
// and of accepted events.
//
// A case `twins MOST SEED` has a plan, of which at most so many calls are to be open. The events
// are made from a seed: most of them such as the network accepts, some of things that a plan does
// not have, of calls that ended, or that come too early. Four scripts begin in its opening state,
// one shortly before the last call number, and one shortly before the last event number. Four short
// ones, each in another mood, are played with each request for memory refused to the engine in
// turn: that changes nothing, and the same event given again has its reply.
//
// A case tells how many events there were. After the last file it is printed how many events of all
// plans had each reply, by the plain network's replies: this shows what the scripts reach, and says
// nothing of what is right. Where the networks differ a case tells the script, the event and the
// difference.

mod chance;
mod drawing;
mod mood;
mod networks;
mod picture;
mod play;
mod script;
mod stray;
mod tally;
mod twins;

pub(crate) use play::play_twins;
pub(crate) use tally::{Tallies, tell_tallies};
