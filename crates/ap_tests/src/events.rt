use crate::pairs::Pairs;
use crate::paths::are_both_ends;
use ap_defs::lists::List;
use ap_defs::memory::Memory;
use ap_play::{Core, are_in_order, are_permitted, play, stays_whole};
use ap_tools::Event;
use std::alloc::Global;

/// The first worker splits the empty path and shares one kid, and each of two ends one.
fn shared(alloc: Global) -> Result<Option<Core>, Memory> {
    let kids = List::of(Vec::from_array(alloc, [1, 2])?);
    let events = vec![in alloc;
        Event::Split(0, kids),
        Event::Push(0),
        Event::Steal(1, 0),
        Event::Done(1),
        Event::Done(0),
    ]?;
    play(alloc, &Pairs::of(1), 2, events.as_slice())
}

fn is_whole(core: &Core) -> bool {
    core.pending.items().is_empty() && are_both_ends(core.done.items())
}

#[test]
fn two_workers_end_what_they_share(rt: HostRuntime) {
    let played = shared(rt.alloc());
    assert!(rt; matches!(&played, Ok(Some(core)) if is_whole(core)));
}

#[test]
fn an_event_is_refused(rt: HostRuntime) {
    let tree = Pairs::of(1);
    stays_whole(&tree);
    are_permitted(&tree);
    are_in_order(&tree);
    assert!(rt; matches!(play(rt.alloc(), &tree, 2, &[Event::Pop(0)]), Ok(None)));
}

/// The first worker shares a kid of the empty path and ends the other, and the kid is left out by this
/// worker, where so many answers had ended before it.
fn left_out(alloc: Global, found: u64) -> Result<Option<Core>, Memory> {
    let kids = List::of(Vec::from_array(alloc, [1, 2])?);
    let events = vec![in alloc;
        Event::Split(0, kids),
        Event::Push(0),
        Event::Done(0),
        Event::Pop(0),
        Event::Skip(0, found),
    ]?;
    play(alloc, &Pairs::of(1), 2, events.as_slice())
}

fn has_left_out(core: &Core) -> bool {
    core.pending.items().is_empty()
        && core.done.items().len() == 1
        && core.skipped.items().len() == 1
}

#[test]
fn a_path_is_left_out_where_answers_enough_have_ended(rt: HostRuntime) {
    let needless = left_out(rt.alloc(), 0);
    assert!(rt; matches!(&needless, Ok(Some(core)) if has_left_out(core)));
    assert!(rt; matches!(left_out(rt.alloc(), 1), Ok(None)));
}
