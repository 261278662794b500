//! Ids that another program drew, and their text.

use crate::{PcgIds, RepeatIds, push_id};
use moka_hist::Ids;
use std::alloc::{AllocError, Global};

// The texts of the first two ids of the seed.
fn first_two(alloc: Global, seed: u64) -> Result<String, AllocError> {
    let mut ids = PcgIds::new(seed);
    let mut text = String::new(alloc);
    push_id(&mut text, ids.next_id())?;
    text.push(' ')?;
    push_id(&mut text, ids.next_id())?;
    Ok(text)
}

#[test]
fn the_ids_of_a_seed_are_those_of_the_generator(rt: HostRuntime) {
    let found = first_two(rt.alloc(), 0).expect(&rt, "there is memory");
    let want = "20ae25da-d4e2-4c53-98f9-38e12bbf69fb b5b235d6-0cf8-4231-89f7-1ee2b019a7da";
    assert_eq!(rt; found.as_str(), want);
    let other = first_two(rt.alloc(), 1).expect(&rt, "there is memory");
    assert!(rt;
        other
            .as_str()
            .starts_with("d701f5c8-2406-4d47-846d-af9b8abaaf57 ")
    );
}

#[test]
fn one_id_comes_again(rt: HostRuntime) {
    let mut ids = RepeatIds { id: 7 };
    assert_eq!(rt; (ids.next_id(), ids.next_id()), (7, 7));
}
