//! Pages that there may be, with how long they are.
ghost use Rattle.std.specs.Prelude.{◌≡◌, IfOk, IfSome, length};
ghost use Rattle.std.proofs.Common.{rules};

use crate::answers::Runtime;
use futures::future::ready;
use moka_cache::{Cache, CacheBuilder, Fact, FixedSeed, NoListener, RetriesExhausted};
use moka_hist::Entry;
use moka_values::Exact;
use std::alloc::Global;
use std::io;

/// A page, and how many bytes it has.
#[derive(Clone, Copy)]
struct Page {
    text: &'static str,
    bytes: usize,
}

impl Exact for Page {
    ghost exact = { Prim.search rules };
}

/// The fact of the pages: each is as long as it says.
struct Measured;

impl Fact<u32, Page> for Measured {
    ghost holds = { λ number page. page.bytes ≡ length page.text.now };

    ghost alike = { λ a b page same so. so };
}

/// Pages by their numbers.
type Pages = Cache<u32, Page, (), NoListener, FixedSeed, Measured>;

/// The page of this text.
fn page_of(text: &'static str) -> Page
    ensures { result.bytes ≡ length result.text.now }
{
    Page {
        text,
        bytes: text.len(),
    }
}

/// What the disk has: pages 1 to 3.
fn on_disk(number: u32) -> Option<Page>
    ensures { IfSome result (λ page. page.bytes ≡ length page.text.now) }
{
    match number {
        1 => Some(page_of("one")),
        2 => Some(page_of("two")),
        3 => Some(page_of("three")),
        _ => None,
    }
}

/// What a load of a page gives, if it gives one.
type Loaded = Result<Option<Entry<u32, Page>>, RetriesExhausted>;

/// Loads the page of this number, if there is one. It is as long as it says, wherever it comes from.
fn load<R: Runtime>(rt: &R, pages: &Pages, number: u32) -> io::Result<Loaded>
    ensures { IfOk result (λ told. IfOk told (λ found. IfSome found
        (λ entry. entry.value.bytes ≡ length entry.value.text.now))) }
{
    let disk = ready(on_disk(number));
    let load = pages.entry(number).or_optionally_insert_with(disk);
    load.block_on(rt, 0)
}

/// The page of this number, if there is one, which is as long as it says.
fn find<R: Runtime>(rt: &R, pages: &Pages, number: u32) -> io::Result<Option<Page>>
    ensures { IfOk result (λ found. IfSome found (λ page. page.bytes ≡ length page.text.now)) }
{
    match load(rt, pages, number)?? {
        Some(entry) => Ok(Some(entry.value)),
        None => Ok(None),
    }
}

/// Asks for a page that there is, and for one that there isn't, which is not kept.
pub(crate) fn show<R: Runtime>(rt: &R, alloc: Global) -> io::Result<()> {
    let pages: Pages = CacheBuilder::new(100).such::<Measured>().build(alloc)?;
    for number in [2, 5] {
        match find(rt, &pages, number)? {
            Some(page) => println!(rt; "page {number}: {} of {} bytes", page.text, page.bytes)?,
            None => println!(rt; "page {number}: none")?,
        }
    }
    Ok(())
}
