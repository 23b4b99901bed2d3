ghost use Rattle.std.specs.Prelude.{◌≡◌, ◌<◌, ◌==◌, IfOk, IfSome, map, filter, find, option_map};
ghost use Rattle.std.specs.List.{enumerate_from};
ghost use Rattle.gs_ai.specs.TablesSupport.{two_digits, starts_at, places_at, AreStarts};
ghost use Rattle.gs_ai.specs.PredefinedLengths.{predefined_length, predefined_lengths};

use crate::row::AiRow;
use gs_chars::{List, Memory};
use std::alloc::Global;

/// Returns the number of the first two digits of the text, if there are two digits.
pub fn two_digits(text: &[u8]) -> Option<usize>
    ensures number { result ≡ two_digits text.now }
    ensures small { IfSome result (λ n. n < 100) }
{
    match text {
        [a @ b'0'..=b'9', b @ b'0'..=b'9', ..] => {
            Some(10 * usize::from(*a - b'0') + usize::from(*b - b'0'))
        }
        _ => None,
    }
}

/// Returns whether the row's code begins with the two digits of the number.
fn starts_at(start: usize, row: &AiRow) -> bool
    ensures { result ≡ starts_at start row.now }
{
    match two_digits(row.code.as_bytes()) {
        Some(n) => n == start,
        None => false,
    }
}

/// Returns the indexes of the rows whose codes begin with the two digits of the number.
fn places_at(alloc: Global, start: usize, rows: &[AiRow]) -> Result<Vec<usize>, Memory>
    ensures { IfOk result (λ places. places.items ≡ places_at start rows.now) }
{
    let mut places = Vec::new(alloc);
    for i in 0..rows.len() {
        if starts_at(start, &rows[i]) {
            places.push(i)?;
        }
    }
    Ok(places)
}

/// Returns, for each number of two digits, the indexes of the rows whose codes begin with them.
pub fn starts_of(alloc: Global, rows: &[AiRow]) -> Result<Vec<List<usize>>, Memory>
    ensures { IfOk result (λ starts. AreStarts rows.now starts.items) }
{
    let mut starts = Vec::new(alloc);
    for start in 0..100 {
        starts.push(List::from_vec(places_at(alloc, start, rows)?))?;
    }
    Ok(starts)
}

/// Returns the length of AI and value together by the number of the AI's first two digits, if it is in the list.
fn length_at(start: usize) -> Option<usize>
    ensures { result ≡ option_map (λ row. row.1) (find (λ row. row.0 == start) predefined_lengths) }
{
    match start {
        0 => Some(20),
        1..=3 | 41 => Some(16),
        4 => Some(18),
        11..=19 => Some(8),
        20 => Some(4),
        31..=36 => Some(10),
        _ => None,
    }
}

/// Returns the length of AI and value together, if the AI's first two digits are in the list. Returns `None` if and only if
/// they are not.
pub fn predefined_length(code: &[u8]) -> Option<usize>
    ensures { result ≡ predefined_length code.now }
{
    match code {
        [a, b, ..] => length_at(
            10 * usize::from(a.saturating_sub(b'0')) + usize::from(b.saturating_sub(b'0')),
        ),
        _ => None,
    }
}
