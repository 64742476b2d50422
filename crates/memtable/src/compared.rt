//! Bytes that are compared a word at a time.
ghost use Rattle.std.specs.Prelude.{◌≡◌, ◌+◌, ◌*◌, ◌<◌, ◌≤◌, length, min};
ghost use Rattle.std.specs.Ordering.{nat_cmp};
ghost use Rattle.std.specs.Cmp.Lexicographic.{slice_cmp};
ghost use Rattle.memtable.specs.Words as specs;

use std::cmp::Ordering;

/// The number that eight bytes spell from a place on, the first byte the greatest.
fn word(bytes: &[u8], at: usize) -> u64
    requires { at + 8 ≤ length bytes.now }
    ensures { result ≡ specs.number_at at 8 bytes.now }
{
    u64::from_be_bytes([
        bytes[at],
        bytes[at + 1],
        bytes[at + 2],
        bytes[at + 3],
        bytes[at + 4],
        bytes[at + 5],
        bytes[at + 6],
        bytes[at + 7],
    ])
}

/// The same of four bytes.
fn half_word(bytes: &[u8], at: usize) -> u32
    requires { at + 4 ≤ length bytes.now }
    ensures { result ≡ specs.number_at at 4 bytes.now }
{
    u32::from_be_bytes([bytes[at], bytes[at + 1], bytes[at + 2], bytes[at + 3]])
}

/// The order of bytes of which the shorter ones are at least eight. The last word may begin within the one before.
fn compare_words(a: &[u8], b: &[u8], both: usize) -> Ordering
    requires both { both ≡ min (length a.now) (length b.now) }
    requires word { 8 ≤ both }
    ensures { result ≡ slice_cmp nat_cmp a.now b.now }
{
    let last = both - 8;
    let mut at = 0;
    while at < last {
        let (x, y) = (word(a, at), word(b, at));
        if x != y {
            return x.cmp(&y);
        }
        at += 8;
    }
    let (x, y) = (word(a, last), word(b, last));
    if x != y {
        return x.cmp(&y);
    }
    a.len().cmp(&b.len())
}

/// The order of bytes of which the shorter ones are four to eight. The second half word may begin within the first.
fn compare_half_words(a: &[u8], b: &[u8], both: usize) -> Ordering
    requires both { both ≡ min (length a.now) (length b.now) }
    requires from { 4 ≤ both }
    requires to { both ≤ 8 }
    ensures { result ≡ slice_cmp nat_cmp a.now b.now }
{
    let (x, y) = (half_word(a, 0), half_word(b, 0));
    if x != y {
        return x.cmp(&y);
    }
    let last = both - 4;
    let (x, y) = (half_word(a, last), half_word(b, last));
    if x != y {
        return x.cmp(&y);
    }
    a.len().cmp(&b.len())
}

/// The order of bytes, one by one.
fn compare_bytes(a: &[u8], b: &[u8], both: usize) -> Ordering
    requires { both ≡ min (length a.now) (length b.now) }
    ensures { result ≡ slice_cmp nat_cmp a.now b.now }
{
    for at in 0..both {
        if a[at] != b[at] {
            return a[at].cmp(&b[at]);
        }
    }
    a.len().cmp(&b.len())
}

/// The order of bytes: the first that differ decide it, and else the lengths.
pub(crate) fn compare(a: &[u8], b: &[u8]) -> Ordering
    ensures { result ≡ slice_cmp nat_cmp a.now b.now }
{
    let both = a.len().min(b.len());
    if both >= 8 {
        compare_words(a, b, both)
    } else if both >= 4 {
        compare_half_words(a, b, both)
    } else {
        compare_bytes(a, b, both)
    }
}
