// Of an hour whose reconstruction refuses a group (12, 13): how many MWh are short.
// For 12 that is the remainder less the room of all units and purchases down to the last step's floors; for 13 what is to be raised less the headroom.
use rules::{InternalSequence, Key, Plant, Running};

// What the group's D lines took, by the row of its first delivery.
fn taken_by(kept: &[u64; 1024], lead: usize) -> u64 {
    kept.chunks(32)
        .nth(lead)
        .unwrap_or(&[])
        .iter()
        .map(|x| moves::direct_mwh(*x))
        .fold(0, u64::saturating_add)
}

// The group's MWh.
fn total_of(keys: &[Key], mwhs: &[u64], group: InternalSequence) -> u64 {
    keys.iter()
        .zip(mwhs)
        .filter(|(key, _)| key.number == group)
        .map(|(_, mwh)| *mwh)
        .fold(0, u64::saturating_add)
}

fn level(s: &Running) -> u32 {
    s.v.saturating_add(s.d)
}

// A source's room down to the last step's floor.
fn last_room(s: &Running) -> u32 {
    match s.plant {
        Plant::Unit(_) | Plant::Purchase { .. } => level(s).saturating_sub(s.b),
        Plant::Fixed { .. } => 0,
    }
}

// How far a source may be raised.
fn headroom(s: &Running) -> u32 {
    match s.plant {
        Plant::Unit(u) if level(s) < u.e => 0,
        Plant::Unit(u) => u.h.saturating_sub(level(s)),
        Plant::Purchase { g, .. } => g.saturating_sub(s.v),
        Plant::Fixed { .. } => 0,
    }
}

fn room_of(s: &Running, up: bool) -> u32 {
    if up { headroom(s) } else { last_room(s) }
}

fn room_in(states: &[Running], up: bool) -> u64 {
    states
        .iter()
        .map(|s| u64::from(room_of(s, up)))
        .fold(0, u64::saturating_add)
}

// What is short, of a group that is refused: the states are those that its remainder met. Past the deliveries no key is a group's, and past the sources
// none has room.
pub fn short_of(
    group: InternalSequence,
    keys: &[Key],
    mwhs: &[u64],
    kept: &[u64; 1024],
    states: &[Running],
) -> u64 {
    let lead = keys.iter().position(|key| key.number == group).unwrap_or(0);
    let took = taken_by(kept, lead);
    let total = total_of(keys, mwhs, group);
    total
        .abs_diff(took)
        .saturating_sub(room_in(states, total < took))
}
