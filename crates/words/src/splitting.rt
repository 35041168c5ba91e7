// Lines become words.
ghost use Rattle.std.specs.Prelude.{◌≡◌, ℕ, ◌<◌, ◌≤◌, true, false, map, length, IfOk, MatchOption, slice_index};
ghost use Rattle.std.specs.Char.{is_ascii_whitespace};
ghost use Rattle.words.specs.Words.{Blank, First, Content, Words, Says};

use std::alloc::{AllocError, Global};

// How many bytes stand before the first white space.
fn solid_len(bytes: &[u8]) -> usize
    ensures within { result ≤ length bytes.now }
    ensures before { (k : ℕ) → k < result → is_ascii_whitespace (slice_index bytes.now k) ≡ false }
    ensures stops { result < length bytes.now → is_ascii_whitespace (slice_index bytes.now result) ≡ true }
{
    bytes
        .iter()
        .position(|byte| byte.is_ascii_whitespace())
        .unwrap_or(bytes.len())
}

// The first word of a text, and what follows it.
pub fn first_word(text: &str) -> Option<(&str, &str)>
    ensures { MatchOption result (Blank text.now) (λ x. First text.now x.0.now x.1.now) }
{
    let solid = text.trim_ascii_start();
    if solid.is_empty() {
        return None;
    }
    Some(solid.split_at(solid_len(solid.as_bytes())))
}

// What stands before the comment.
pub fn content(line: &str) -> &str
    ensures { Content line.now result.now }
{
    line.split_once('#').map_or(line, |(front, _)| front)
}

// The words of a text, first to last. A loop: `split_ascii_whitespace` makes a part of each blank, and takes twice as long
// over a text in columns.
fn all_words<'a>(heap: Global, text: &'a str) -> Result<Vec<&'a str>, AllocError>
    ensures { IfOk result (λ v. Words text.now (map (λ x. x.now) v.items)) }
{
    let mut words = Vec::new(heap);
    let mut rest = text;
    while let Some((word, after)) = first_word(rest) {
        words.push(word)?;
        rest = after;
    }
    Ok(words)
}

// The words of a line, first to last, up to its comment.
pub fn words<'a>(heap: Global, line: &'a str) -> Result<Vec<&'a str>, AllocError>
    ensures { IfOk result (λ v. Says line.now (map (λ x. x.now) v.items)) }
{
    all_words(heap, content(line))
}
