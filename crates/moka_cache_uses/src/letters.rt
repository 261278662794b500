//! Letters that are equal ignoring case, and a fact of both.
ghost use Rattle.std.specs.Prelude.{◌≡◌, ◌+◌, IfOk, IfSome, nat_eq};
ghost use Rattle.std.specs.Hash as fed;
ghost use Rattle.std.specs.Ordering.{on};
ghost use Rattle.std.specs.Cmp.Rules.{comparing, hashing};
ghost use Rattle.std.proofs.Common.{rules, subst};
ghost use Rattle.std.proofs.lemmas.Bool.{eqb-true};

use crate::answers::Runtime;
use moka_cache::{Cache, CacheBuilder, Fact, FixedSeed, NoListener};
use moka_values::Exact;
use std::alloc::Global;
use std::hash::{Hash, Hasher};
use std::io;

/// A letter by its place in the alphabet. Those of one place are equal, capital or not.
#[derive(Clone, Copy, Debug)]
struct Letter {
    place: u32,
    spelled: char,
}

impl Exact for Letter {
    ghost exact = { Prim.search rules };
}

impl PartialEq for Letter {
    ghost eq = { on (λ letter. letter.place) nat_eq };

    ghost laws = { Prim.search (comparing, rules) };

    fn eq(&self, other: &Letter) -> bool {
        self.place == other.place
    }
}

impl Eq for Letter {
    ghost laws = { Prim.search (comparing, rules) };
}

impl Hash for Letter {
    ghost hash_input = { λ letter. fed.u32 letter.place };

    ghost respects_eq = { Prim.search (hashing, rules) };

    fn hash<H: Hasher>(&self, state: &mut H) {
        state.write_u32(self.place);
    }
}

/// The fact of the cache: each value is the code of the small letter.
struct OfSmall;

impl Fact<Letter, u32> for OfSmall {
    ghost holds = { λ letter code. code ≡ letter.place + 96 };

    ghost alike = { λ a b code same so.
        subst (λ place. code ≡ place + 96) (eqb-true a.place b.place same) so };
}

/// Codes of small letters, by the letter in either case.
type Codes = Cache<Letter, u32, (), NoListener, FixedSeed, OfSmall>;

/// The code of the small letter, if it is there, however the letter is spelled.
fn code_of<R: Runtime>(rt: &R, codes: &Codes, letter: &Letter) -> io::Result<Option<u32>>
    ensures { IfOk result (λ found. IfSome found (λ code. code ≡ letter.now.place + 96)) }
{
    codes.get(letter).block_on(rt, 0)
}

/// Stores the code of `a` by the small letter, and finds it by the capital.
pub(crate) fn show<R: Runtime>(rt: &R, alloc: Global) -> io::Result<()> {
    let codes: Codes = CacheBuilder::new(100).such::<OfSmall>().build(alloc)?;
    let small = Letter {
        place: 1,
        spelled: 'a',
    };
    let capital = Letter {
        place: 1,
        spelled: 'A',
    };
    codes.insert(small, 97).block_on(rt, 0)?;
    let found = code_of(rt, &codes, &capital)?;
    println!(rt;
        "letters: {} finds {found:?}, stored by {}",
        capital.spelled, small.spelled
    )
}
