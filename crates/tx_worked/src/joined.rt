// Two plans over their joined network, as texts.
use crate::cases::{Refusing, Stop, Told, tell, tell_broken};
use std::alloc::{Allocator, Global};
use tx_join::{JoinRefusal, Joined, join, write_after, write_before, write_list_counts};
use tx_plan::Plan;
use tx_plantext::{read_plan, write_plan};

/// Writes both plans over their joined network. Joined again they are the same.
fn tell_joined(alloc: Global, joined: &Joined, out: &mut Told) {
    let mut written = Told::new(alloc);
    let _ = write_plan(&joined.old, &mut written);
    let _ = write_plan(&joined.new, &mut written);
    tell(written.text(), out);
    let mut again = Told::new(alloc);
    if let Ok(joined) = join(alloc, &joined.old, &joined.new) {
        let _ = write_plan(&joined.old, &mut again);
        let _ = write_plan(&joined.new, &mut again);
    }
    if !again.is(written.text()) {
        tell_broken(b"not the same when joined again", 0, out);
    }
}

/// Writes why two plans have no joined network, with what they contradict each other in.
fn tell_refusal(refusal: JoinRefusal, new: &Plan, out: &mut Told) {
    match refusal {
        JoinRefusal::OtherHome(code) => {
            tell(b"OTHER HOME ", out);
            tell(new.code_figures(code), out);
        }
        JoinRefusal::OtherGroup(group) => {
            tell(b"OTHER GROUP ", out);
            tell(new.group_name(group), out);
        }
        JoinRefusal::TooMany => tell(b"TOO MANY", out),
        JoinRefusal::NoMemory => tell(b"NO MEMORY", out),
    }
    tell(b"\n", out);
}

/// Reads two plans, which are good ones, and joins them.
fn joins<A: Allocator + Copy>(alloc: A, old: &[u8], new: &[u8]) -> Result<(), JoinRefusal> {
    let old = read_plan(alloc, old).or(Err(JoinRefusal::NoMemory))?;
    let new = read_plan(alloc, new).or(Err(JoinRefusal::NoMemory))?;
    let joined = join(alloc, &old, &new)?;
    drop(joined);
    Ok(())
}

/// Refuses each request for memory in turn.
fn try_refusals(alloc: Global, old: &[u8], new: &[u8], out: &mut Told) {
    for request in 1..1_000_000u64 {
        let refusing = Refusing::new(alloc, request);
        let wants = joins(&refusing, old, new) == Err(JoinRefusal::NoMemory);
        if wants != refusing.has_refused() {
            tell_broken(b"joined plans, refused request", request, out);
        }
        if !wants {
            break;
        }
    }
}

/// Writes what is done before and after two plans are switched, and both over their joined network,
/// or why they have none.
fn tell_join(alloc: Global, old: &Plan, new: &Plan, out: &mut Told) {
    match join(alloc, old, new) {
        Ok(joined) => {
            write_before(old, new, out);
            write_after(old, new, out);
            write_list_counts(old, new, out);
            tell_joined(alloc, &joined, out);
        }
        Err(refusal) => tell_refusal(refusal, new, out),
    }
}

/// Joins two plans, and tells what comes of it. Refuses each request for memory in turn.
pub(crate) fn play_joined(
    alloc: Global,
    old: &[u8],
    new: &[u8],
    out: &mut Told,
) -> Result<(), Stop> {
    try_refusals(alloc, old, new, out);
    let old = read_plan(alloc, old)?;
    let new = read_plan(alloc, new)?;
    tell_join(alloc, &old, &new, out);
    Ok(())
}
