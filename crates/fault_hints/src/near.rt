// Whether two words differ by one letter that is wrong, lacks or is too many, or by two that are
// swapped; or whether one begins with the other. Words of fewer than three letters are near to none.
pub(crate) fn is_near(found: &[u8], word: &[u8]) -> bool {
    if found.len() < 3 || word.len() < 3 {
        return false;
    }
    found.starts_with(word) || word.starts_with(found) || is_one_slip(found, word)
}

fn is_one_slip(found: &[u8], word: &[u8]) -> bool {
    let front = common_front(found, word);
    let (found, word) = (after(found, front), after(word, front));
    let back = common_back(found, word);
    match (before(found, back), before(word, back)) {
        ([], [_]) | ([_], []) | ([_], [_]) => true,
        ([a, b], [c, d]) => a == d && b == c,
        _ => false,
    }
}

// How many bytes both begin with.
fn common_front(a: &[u8], b: &[u8]) -> usize {
    let mut count: usize = 0;
    for (x, y) in a.iter().zip(b.iter()) {
        if x != y {
            return count;
        }
        count = count.saturating_add(1);
    }
    count
}

// How many bytes both end with.
fn common_back(a: &[u8], b: &[u8]) -> usize {
    let mut count: usize = 0;
    for (x, y) in a.iter().rev().zip(b.iter().rev()) {
        if x != y {
            return count;
        }
        count = count.saturating_add(1);
    }
    count
}

fn after(text: &[u8], count: usize) -> &[u8] {
    text.get(count..).unwrap_or(&[])
}

// A text without so many of its last bytes.
fn before(text: &[u8], count: usize) -> &[u8] {
    text.get(..text.len().saturating_sub(count)).unwrap_or(&[])
}
