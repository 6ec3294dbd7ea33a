//! Room for the added block between the segments.

ghost use Rattle.std.specs.Prelude.{◌≡◌, ℕ, ◌+◌, ◌*◌, ◌/◌, ◌<◌, ◌≤◌, ◌^◌, true, false};
ghost use Rattle.std.specs.List.{list_all};
ghost use Rattle.image_layout.specs.Fit.{is_apart, first_fit as first_fit_of};
ghost use Rattle.image_layout.specs.Room.{ArePagesApart};

use elf32_read::{Image, Segment};

/// How many bytes a page has.
const PAGE: u64 = 4096;

/// The first page at which the block may lie: that of 0x00100000.
const FIRST_PAGE: u64 = 0x100;

/// The address at which the block ends at the latest.
const TOP: u64 = 0xB000_0000;

/// The lowest multiple of 4,096 from 0x00100000 on at which a block of `size` bytes ends at most at 0xB0000000 and
/// shares no page with a segment; `None` exactly where there is none. The segments ascend and share no page, and the size is a
/// multiple of 4,096.
pub fn first_fit(image: &Image, size: u64) -> Option<u32>
    requires apart { ArePagesApart 0 image.now.segments }
    requires some { 0 < size }
    ensures { result ≡ first_fit_of image.now.segments size }
{
    let page = free_page(image.segments.as_slice(), size / PAGE);
    if size <= TOP && PAGE * page <= TOP - size {
        Some((PAGE * page) as u32)
    } else {
        None
    }
}

/// The lowest page from that of 0x00100000 on from which so many pages are none of the segments'.
fn free_page(segments: &[Segment], pages: u64) -> u64
    requires apart { ArePagesApart 0 segments.now }
    requires limit { pages ≤ 2 ^ 52 }
    ensures high { result ≤ 0x100000 }
    ensures low { 0x100 ≤ result }
    ensures free { list_all (is_apart result (result + pages)) segments.now ≡ true }
    ensures lowest { (page : ℕ) → 0x100 ≤ page → page < result
        → list_all (is_apart page (page + pages)) segments.now ≡ false }
{
    let mut page = FIRST_PAGE;
    for segment in segments {
        if page + pages <= u64::from(segment.range.lo()) / PAGE {
            return page;
        }
        page = page.max(segment.range.end().div_ceil(PAGE));
    }
    page
}
