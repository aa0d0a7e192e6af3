//! Tests of tables of many sizes, which are filled to the last slot and closed, and of a core whose contexts have all
//! had their last thread.
use super::TagOnly;
use super::rows::follow;
use crate::Contexts;
use arachne_core::{CORES, LAST_GENERATION, SLOTS};
use std::alloc::{AllocError, Global};
use std::sync::Wait;
use std::test::Fail;

const CORE_COUNTS: &[u8] = &[1, 2, 3, 5, 8, 15, 16, 17, 20, 32, 40, 63, 64];

/// Some numbers of slots of a core, each with the occupancy word of a full core.
const SLOT_COUNTS: &[(u8, u64)] = &[
    (1, 0x0100000000000001),
    (2, 0x0200000000000003),
    (3, 0x0300000000000007),
    (4, 0x040000000000000f),
    (8, 0x08000000000000ff),
    (30, 0x1e0000003fffffff),
    (54, 0x363fffffffffffff),
    (55, 0x377fffffffffffff),
    (56, 0x38ffffffffffffff),
];

/// Each core must refuse one thread more than it has slots, and its occupancy word must be `full`.
fn filled(alloc: Global, cores: u8, slots: u8, full: u64) -> Result<String, AllocError> {
    let mut row = format!(in alloc; "new {cores} {slots}")?;
    for core in 0..u32::from(cores) {
        let last = ((core + 1) * u32::from(slots)).saturating_sub(1);
        let calls = format!(in alloc;
            "| fill {core} = id {last} 0 | claim {core} = full {full:#x}"
        )?;
        row.push_str(&calls)?;
    }
    Ok(row)
}

/// A closed table must return a thread for each of its slots.
pub(super) fn fill_tables<C: Contexts<TagOnly> + Drop, R: Wait>(
    rt: &R,
    alloc: Global,
) -> Result<(), Fail> {
    for &cores in CORE_COUNTS {
        for &(slots, full) in SLOT_COUNTS {
            let row = filled(alloc, cores, slots, full)?;
            if follow::<C, R>(rt, alloc, &row)?.len() != usize::from(cores) * usize::from(slots) {
                return Err("not every place had a thread".into());
            }
        }
    }
    Ok(())
}

pub(super) fn make_tables<C: Contexts<TagOnly> + Drop>(alloc: Global) -> Result<(), AllocError> {
    for cores in 1..CORES + 1 {
        for slots in 1..SLOTS + 1 {
            let _ = C::new(alloc, cores, slots, 0)?;
        }
    }
    Ok(())
}

/// Each context begins with the greatest count of ended threads, so it may have only one thread, and keeps its slot. At
/// the end the core must be full, and must not count as drained (empty) once it is closed.
pub(super) fn spend_core<C: Contexts<TagOnly> + Drop, R: Wait>(
    rt: &R,
    alloc: Global,
) -> Result<(), Fail> {
    let last = LAST_GENERATION;
    let mut row = format!(in alloc; "new 1 {SLOTS} = from {last}")?;
    for index in 0..SLOTS {
        let calls = format!(in alloc;
            "| post 0 {index} = id {index} {last} | take 0 {index} = id {index} {last} | end = tag {index}"
        )?;
        row.push_str(&calls)?;
    }
    row.push_str("| look 0 = word 0x38ffffffffffffff | close 0 = word 0x38ffffffffffffff")?;
    row.push_str("| look 0 = word 0x78ffffffffffffff | drained 0 = drained 0")?;
    follow::<C, R>(rt, alloc, &row)?;
    Ok(())
}
