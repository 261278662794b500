//! Random acts beside the plain model, with the bytes of feeds cut in each way.

use crate::acts::{Act, Cut, play};
use crate::model::Model;
use rand_core::Rng;
use rand_pcg::Pcg32;
use std::alloc::{AllocError, Global};
use std::test::Fail;

/// How many rows of acts are tried.
const ROWS: u64 = 300;

/// How many acts a row has.
const ACTS: u32 = 60;

/// A number below the bound, which isn't 0.
fn below(random: &mut Pcg32, bound: u32) -> u32 {
    random.next_u32() % bound.max(1)
}

/// Bytes that a client may send.
fn piece(random: &mut Pcg32) -> &'static str {
    match below(random, 16) {
        0 | 1 => "get 1;",
        2 | 3 => "get 2;",
        4 => "get 3;get 1;get 3;",
        5 => "get 0;",
        6 => "ge",
        7 => "t 2;",
        8 => "get ",
        9 => "1;",
        10 => ";",
        11 => "get 02;x;get 4294967296;",
        12 => "get 2;get 1;bad;get 4294967295;",
        13 => "xxxxxxxxxxxxxxxxxxxxxxxxxxxxxxxx",
        14 => "xxxxxxxxxxxxxxxxxxxxxxxxxxxxxxxxx;get 3;",
        _ => "get 0;get 3;get 2;get 1;get 0",
    }
}

/// What happens next.
fn act(random: &mut Pcg32) -> Act {
    let client = u64::from(below(random, 8));
    let key = below(random, 4);
    match below(random, 12) {
        0 | 1 => Act::Open,
        2 => Act::Close(client),
        3 => Act::Value(key, below(random, 9)),
        4 | 5 => Act::Error(key, below(random, 9)),
        _ => Act::Feed(client, piece(random)),
    }
}

/// A random row of acts.
fn row(alloc: Global, random: &mut Pcg32) -> Result<Vec<Act>, AllocError> {
    let mut acts = Vec::new(alloc);
    for _ in 0..ACTS {
        acts.push(act(random))?;
    }
    Ok(acts)
}

/// Whether the row comes to what the model says, and to the same upstream requests and bytes however
/// the bytes of its feeds are cut.
fn is_as_modelled(alloc: Global, acts: &[Act], at: usize) -> Result<bool, AllocError> {
    let mut model = Model::new(alloc);
    let mut text = String::new(alloc);
    for act in acts {
        model.carry_out(alloc, *act, &mut text)?;
    }
    let whole = play(alloc, acts, Cut::Whole)?;
    let cut = play(alloc, acts, Cut::At(at))?;
    let single = play(alloc, acts, Cut::Single)?;
    Ok(
        whole.lines == text
            && cut.ups == whole.ups
            && cut.sent == whole.sent
            && single.ups == whole.ups
            && single.sent == whole.sent,
    )
}

#[test]
fn random_rows_come_to_what_the_model_says(rt: HostRuntime) -> Result<(), Fail> {
    for number in 0..ROWS {
        let mut random = Pcg32::new(number, 54);
        let acts = row(rt.alloc(), &mut random)?;
        let at = below(&mut random, 9) as usize;
        assert!(rt; is_as_modelled(rt.alloc(), &acts, at)?, "row {number}");
    }
    Ok(())
}
