//! Ids from a generator with a seed.

ghost use Rattle.std.specs.Prelude.{◌≡◌, ℕ, ◌+◌, ◌*◌, ◌/◌, ◌%◌, ◌^◌, ◌<◌, suc};
ghost use Rattle.moka_ids.specs.Drawn.{id_of, ids_from, seeded, variant_word, version_word};

use moka_hist::Ids;
use rand_core::SeedableRng;
use rand_core::utils::NextWord;
use rand_pcg::Lcg128Xsl64;

/// Ids of version 4, each drawn by two words of a PCG generator, the high word first.
#[derive(Drop)]
pub struct PcgIds {
    words: Lcg128Xsl64,
}

impl PcgIds {
    /// The ids of this seed. Equal seeds give equal ids. It takes no memory.
    pub fn new(seed: u64) -> Self
        ensures { result.words ≡ seeded seed }
    {
        PcgIds {
            words: Lcg128Xsl64::seed_from_u64(seed),
        }
    }
}

impl Ids for PcgIds {
    ghost stream = { λ ids. ids_from ids.words };

    fn next_id(&mut self) -> u128 {
        let high = self.words.next_word();
        let low = self.words.next_word();
        u128::from(with_version(high)) * (1 << 64) + u128::from(with_variant(low))
    }
}

// The high word of an id, of which bits 12 to 15 are the version, 4.
fn with_version(high: u64) -> u64
    ensures { result ≡ version_word high }
{
    high / 65_536 * 65_536 + 16_384 + high % 4_096
}

// The low word of an id, of which the two top bits are the variant, 2.
fn with_variant(low: u64) -> u64
    ensures { result ≡ variant_word low }
{
    (1 << 63) + low % (1 << 62)
}
