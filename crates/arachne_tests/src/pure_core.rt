//! Tests of `World`, the abstract state of a context table, and of the packed words of such a table. Each public call
//! is made once, with fixed numbers.
use arachne_core::{Event, Mark, MarkWord, NotApplied, OccWord, Place, World};
use std::alloc::AllocError;

fn claim(context: u32) -> Event {
    let carrier = 0;
    Event::Claim { carrier, context }
}

fn post(tag: u64) -> Event {
    let (carrier, context) = (0, 0);
    Event::Post {
        carrier,
        context,
        tag,
    }
}

fn take(carrier: u32) -> Event {
    let context = 0;
    Event::Take { carrier, context }
}

fn shown(world: &World) -> Option<(u64, u64)> {
    let (cores, slots) = (world.cores(), world.slots());
    if u32::from(cores) * u32::from(slots) == 0 {
        return None;
    }
    let place = world.place_of(0);
    if place.core >= cores || place.index >= slots || world.context_at(place) != 0 {
        return None;
    }
    Some((world.occ(0).word(), world.mark(0).word()))
}

/// A core that is closed must refuse a claim, but the thread that was put there before can be taken, once.
#[test]
fn a_world_makes_the_events_that_it_allows(rt: HostRuntime) -> Result<(), AllocError> {
    let refused = Err(NotApplied::NotAllowed);
    let mut world = World::new(rt.alloc(), 1, 56, 0)?;
    world.reserve(1, 0)?;
    assert!(rt; world.apply(claim(0)) == Ok(()));
    assert!(rt; world.apply(post(7)) == Ok(()));
    assert!(rt; world.apply(Event::CloseCore { core: 0 }) == Ok(()));
    assert!(rt; world.apply(claim(1)) == refused);
    assert!(rt; world.apply(take(1)) == Ok(()));
    assert!(rt; world.apply(take(0)) == refused);
    assert!(rt; shown(&world) == Some((0x4100_0000_0000_0001, 0x3)));
    Ok(())
}

fn marked(number: u64) -> Option<(u64, bool, u8, u8, u64)> {
    let word = MarkWord::from_word(number)?;
    let (code, Place { core, index }) = (word.mark().code(), word.place());
    Some((code, word.is_alone(), core, index, word.generation()))
}

fn changed(number: u64, first: u64) -> Option<(u64, u64, u64, u64)> {
    let word = MarkWord::from_word(number)?;
    let (core, index) = (63, 55);
    let again = MarkWord::new(Mark::from_code(1), false, word.place(), word.generation());
    let marked = word.with_mark(Mark::Spent);
    let placed = word.with_place(Place { core, index });
    let read = MarkWord::from_first(first)?;
    Some((again.word(), marked.word(), placed.word(), read.word()))
}

/// `0x10856` must be refused, since no mark has the code 6.
#[test]
fn mark_words(rt: HostRuntime) {
    let greatest = Some((5, true, 63, 55, 281_474_976_710_655));
    assert!(rt; marked(0xffff_ffff_ffff_ff7d) == greatest && marked(0x10856) == None);
    let expected = Some((0x10851, 0x10855, 0x1ff71, 0x10851));
    assert!(rt; changed(0x10851, 0x4851) == expected);
    assert!(rt; MarkWord::from_first(0xffff_ffff_ffff_c001).is_none());
}

fn occupied(number: u64) -> Option<(u64, u8, bool, bool, bool, Option<u8>)> {
    let occ = OccWord::from_word(number)?;
    let (closed, exclusive, empty) = (occ.is_closed(), occ.is_exclusive(), occ.is_empty());
    let (mask, count, free) = (occ.mask(), occ.count(), occ.lowest_free());
    Some((mask, count, closed, exclusive, empty, free))
}

fn with_and_without(number: u64) -> Option<(u64, u64, bool, u64)> {
    let occ = OccWord::from_word(number)?;
    let (with, without) = (occ.with_bit(2).word(), occ.without_bit(2).word());
    let flagged = occ.without_bit(0).with_closed(true).with_exclusive(true);
    Some((with, without, occ.is_occupied(2), flagged.word()))
}

/// The second number must be refused, since its count isn't the number of bits in its mask.
#[test]
fn occupancy_words(rt: HostRuntime) {
    let fields = Some((5, 2, false, false, false, Some(1)));
    assert!(rt; occupied(0x0200_0000_0000_0005) == fields);
    assert!(rt; occupied(0x0200_0000_0000_0007) == None);
    let one = 0x0100_0000_0000_0001;
    let expected = Some((0x0200_0000_0000_0005, one, false, 0xc000_0000_0000_0000));
    assert!(rt; with_and_without(one) == expected);
    let made = OccWord::new(7, true, false).word();
    assert!(rt; (OccWord::empty().word(), made) == (0, 0x4300_0000_0000_0007));
}

#[test]
fn numbers_of_places(rt: HostRuntime) {
    let place = Place::of_context(4, 3);
    assert!(rt; (place.core, place.index, place.number(3)) == (1, 1, 4));
}
