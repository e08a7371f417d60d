//! A line cut into words, in one pass over its bytes. What stands behind a word is `None` where the line ends
//! with the word, else the bytes behind the space that ends it.

ghost use Rattle.std.specs.Prelude.{◌≡◌, ◌≢◌, ◌==◌, [], ◌∷◌, ◌++◌, length, position, IfSome, IfNone, option_copied};
ghost use Rattle.sm_machine.specs.Lines.{words};
ghost use Rattle.sm_script.specs.Cuts.{behind, words_behind};

use memchr::memchr;

/// The first word of a line, and what stands behind it.
pub fn first_word(line: &[u8]) -> (&[u8], Option<&[u8]>)
    ensures words { words line.now ≡ result.0.now ∷ words_behind (option_copied result.1) }
    ensures bytes { line.now ≡ result.0.now ++ behind (option_copied result.1) }
{
    match first_space(line) {
        Some(end) => (&line[..end], Some(&line[end + 1..])),
        None => (line, None),
    }
}

// The place of the first space, counted from 0.
fn first_space(line: &[u8]) -> Option<usize>
    ensures { result ≡ position (λ byte. byte == 32) line.now }
{
    memchr(b' ', line)
}

/// The one word that stands behind another.
pub fn one(rest: Option<&[u8]>) -> Option<&[u8]>
    ensures words { IfSome result (λ w. words_behind (option_copied rest.entry) ≡ w.now ∷ []) }
    ensures other { IfNone result (length (words_behind (option_copied rest.entry)) ≢ 1) }
{
    let (word, more) = first_word(rest?);
    if more.is_some() {
        return None;
    }
    Some(word)
}

/// The two words that stand behind another.
pub fn two(rest: Option<&[u8]>) -> Option<(&[u8], &[u8])>
    ensures words { IfSome result (λ w. words_behind (option_copied rest.entry) ≡ w.0.now ∷ w.1.now ∷ []) }
    ensures other { IfNone result (length (words_behind (option_copied rest.entry)) ≢ 2) }
{
    let (first, more) = first_word(rest?);
    let second = one(more)?;
    Some((first, second))
}

/// The three words that stand behind another.
pub fn three(rest: Option<&[u8]>) -> Option<(&[u8], &[u8], &[u8])>
    ensures words { IfSome result (λ w. words_behind (option_copied rest.entry) ≡ w.0.now ∷ w.1.now ∷ w.2.now ∷ []) }
    ensures other { IfNone result (length (words_behind (option_copied rest.entry)) ≢ 3) }
{
    let (first, more) = first_word(rest?);
    let (second, third) = two(more)?;
    Some((first, second, third))
}

/// The four words that stand behind another.
pub fn four(rest: Option<&[u8]>) -> Option<(&[u8], &[u8], &[u8], &[u8])>
    ensures words { IfSome result
        (λ w. words_behind (option_copied rest.entry) ≡ w.0.now ∷ w.1.now ∷ w.2.now ∷ w.3.now ∷ []) }
    ensures other { IfNone result (length (words_behind (option_copied rest.entry)) ≢ 4) }
{
    let (first, more) = first_word(rest?);
    let (second, third, fourth) = three(more)?;
    Some((first, second, third, fourth))
}
