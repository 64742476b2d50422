//! What the words of a line spell: numbers and bytes.
ghost use Rattle.std.specs.Prelude.{◌≡◌, ◌==◌, ◌<◌, ◌≤◌, false, true, map, length, IfNone, IfOk, IfSome, OnOk};
ghost use Rattle.std.specs.Option.{SomeIff};
ghost use Rattle.std.specs.Char.{is_ascii_digit};
ghost use Rattle.std.specs.List.{list_all, repeat, slice_split};
ghost use Rattle.std.specs.Str.{chars};
ghost use Rattle.std.specs.Str.Parse.{digits_value};
ghost use Rattle.script_lines.specs.Copies.{bytes_of};
ghost use Rattle.script_lines.specs.Limits.{most_copies};
ghost use Rattle.script_lines.specs.Values.{AsksCopies, IsNumber, IsTooMany, IsValue, after_star, before_star};

use crate::copies::Copies;
use bytes::Bytes;
use std::alloc::{AllocError, Global};

/// The most copies that a word may ask for.
const MOST_COPIES: u64 = 16_777_216;

/// As many words as nearly all lines have, for which room is made at once.
const USUAL_WORDS: usize = 8;

/// What a value word stands for: `N*c` is N copies of the character c, `-` is no byte, and any other word is itself.
/// A word that asks for more copies than the most cannot be read.
pub fn value(word: &str) -> Option<Copies<'_>>
    ensures found { IfSome result (λ copies. IsValue word.now (bytes_of copies)) }
    ensures none { IfNone result (IsTooMany word.now) }
{
    if let Some((count, copied)) = copies(word) {
        return repeated(count, copied);
    }
    if word == "-" {
        return Some(Copies {
            count: 0,
            text: word,
        });
    }
    Some(Copies {
        count: 1,
        text: word,
    })
}

/// What stands before and after the star of a word that asks for copies.
fn copies(word: &str) -> Option<(&str, &str)>
    ensures found { IfSome result (λ parts. AsksCopies word.now
        × (parts.0.now ≡ before_star word.now) × (parts.1.now ≡ after_star word.now)) }
    ensures none { IfNone result (AsksCopies word.now → ⊥) }
{
    if !begins_with_digit(word) {
        return None;
    }
    let Some((count, copied)) = word.split_once('*') else {
        return None;
    };
    if is_numeral(count) && !count.is_empty() && characters(copied) == 1 {
        Some((count, copied))
    } else {
        None
    }
}

/// Whether a digit stands first, as it does in each word that asks for copies: so no star is looked for in most words.
fn begins_with_digit(word: &str) -> bool
    ensures { result ≡ false → AsksCopies word.now → ⊥ }
{
    match word.as_bytes() {
        [first, ..] => first.is_ascii_digit(),
        [] => false,
    }
}

/// As many copies as the numeral says, if these are not too many.
fn repeated<'a>(count: &str, copied: &'a str) -> Option<Copies<'a>>
    requires digits { list_all is_ascii_digit count.now ≡ true }
    requires some { 0 < length count.now }
    ensures found { IfSome result (λ copies. (digits_value 10 count.now ≤ most_copies)
        × (bytes_of copies ≡ repeat (digits_value 10 count.now) copied.now)) }
    ensures none { IfNone result (most_copies < digits_value 10 count.now) }
{
    let count = number(count)?;
    if count > MOST_COPIES {
        return None;
    }
    Some(Copies {
        count: count as usize,
        text: copied,
    })
}

/// How many characters the word has.
#[tactic(auto, using(std::proofs::lemmas::Str::chars_from_encodes))]
fn characters(word: &str) -> usize
    ensures { result ≡ length (chars word.now) }
{
    word.chars().count()
}

/// Whether there is nothing but digits.
fn is_numeral(word: &str) -> bool
    ensures { result ≡ list_all is_ascii_digit word.now }
{
    word.bytes().all(|b| b.is_ascii_digit())
}

/// A number in digits alone.
pub fn number(word: &str) -> Option<u64>
    ensures { SomeIff result (IsNumber word.now) (digits_value 10 word.now) }
{
    if is_numeral(word) {
        word.parse().ok()
    } else {
        None
    }
}

/// Puts the words of a line, which single blanks part, into a list in place of what it had. An error is out of memory (22), and
/// the list then has some of them.
pub fn words_into<'a>(line: &'a str, words: &mut Vec<&'a str>) -> Result<(), AllocError>
    ensures { OnOk result (map (λ w. w.now) words.new.items ≡ slice_split (λ b. b == 32) line.now) }
{
    words.clear();
    words.extend(line.split(' '))?;
    Ok(())
}

/// The words of a line, which single blanks part. An error is out of memory (22).
pub fn words(alloc: Global, line: &str) -> Result<Vec<&str>, AllocError>
    ensures { IfOk result (λ words. map (λ w. w.now) words.items ≡ slice_split (λ b. b == 32) line.now) }
{
    let mut words = Vec::with_capacity(alloc, USUAL_WORDS)?;
    words_into(line, &mut words)?;
    Ok(words)
}

/// The bytes of a key, which are the word's own. An error is out of memory (22).
pub fn key(alloc: Global, word: &str) -> Result<Bytes, AllocError>
    ensures { IfOk result (λ key. key ≡ word.now) }
{
    Bytes::copy_from_slice(alloc, word.as_bytes())
}
