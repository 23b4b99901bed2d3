ghost use Rattle.std.specs.Prelude.{◌≡◌, ◌≤◌, ◌<◌, All, length, take};
ghost use Rattle.gs_links.specs.Choices.{passing};
ghost use Rattle.gs_links.specs.Languages.{matches, narrowed, MatchesAt, MatchesNone, NoneBefore, SomeAt};
ghost use Rattle.gs_links.specs.Numbers.{IsNumbered};

use crate::languages::{matches, tags_of};
use crate::link::Link;
use crate::ranges::{Numbers, Ranges};
use gs_chars::Text;

/// Puts at the start, of the numbers, those of links that match a range, and gives their number.
fn put_matching(links: &[Link], numbers: &[u32], range: &[u8], out: &mut [u32]) -> usize
    requires known { All (λ i. i < length links.now) numbers.now }
    requires room { length numbers.now ≤ length out.now }
    ensures count { result ≡ length (passing links.now (matches range.now) numbers.now) }
    ensures numbers { take result out.new ≡ passing links.now (matches range.now) numbers.now }
{
    let mut count = 0;
    for number in numbers {
        if !matches(range, &links[*number as usize]) {
            continue;
        }
        out[count] = *number;
        count += 1;
    }
    count
}

/// Returns the number of the first range from a place to another that the link matches, or that other.
fn first_of_link(ranges: &[Text], link: &Link, from: usize, to: usize) -> usize
    requires { to ≤ length ranges.now }
    ensures most { result ≤ to }
    ensures before { MatchesNone ranges.now link.now from result }
    ensures matched { result < to → MatchesAt ranges.now link.now result }
{
    for k in from..to {
        if matches(ranges[k].as_bytes(), link) {
            return k;
        }
    }
    to
}

/// Returns the number of the first range that the link of one of the numbers matches, or the number of ranges. A link is compared
/// only with ranges from the first that it may match.
fn first_matched(links: &[Link], numbers: &[u32], ranges: &[Text], by_text: &Numbers) -> usize
    requires known { All (λ i. i < length links.now) numbers.now }
    requires numbered { IsNumbered by_text.now ranges.now }
    ensures before { NoneBefore links.now numbers.now ranges.now result }
    ensures matched { SomeAt links.now numbers.now ranges.now result }
{
    let mut first = ranges.len();
    for number in numbers {
        let link = &links[*number as usize];
        let from = by_text.least_of_tags(tags_of(link));
        first = first_of_link(ranges, link, from, first);
    }
    first
}

/// Puts all of the numbers at the start, and gives their number.
fn put_all(numbers: &[u32], out: &mut [u32]) -> usize
    requires { length numbers.now ≤ length out.old }
    ensures count { result ≡ length numbers.now }
    ensures numbers { take result out.new ≡ numbers.now }
{
    out[..numbers.len()].copy_from_slice(numbers);
    numbers.len()
}

/// Puts at the start those of the numbers whose links match the first range that one of them matches. It puts all if no range
/// is matched. Returns their number. Without a range, as for most requests, no link is read.
pub(crate) fn put_narrowed(
    links: &[Link],
    numbers: &[u32],
    ranges: &Ranges,
    out: &mut [u32],
) -> usize
    requires known { All (λ i. i < length links.now) numbers.now }
    requires room { length numbers.now ≤ length out.now }
    ensures count { result ≡ length (narrowed links.now numbers.now ranges.now) }
    ensures numbers { take result out.new ≡ narrowed links.now numbers.now ranges.now }
{
    let texts = ranges.items();
    if texts.is_empty() {
        return put_all(numbers, out);
    }
    let first = first_matched(links, numbers, texts, ranges.numbers());
    match texts.get(first) {
        Some(range) => put_matching(links, numbers, range.as_bytes(), out),
        None => put_all(numbers, out),
    }
}
