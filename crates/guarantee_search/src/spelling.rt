//! Spells letters as words, and lists of letters as keys.

ghost use Rattle.std.specs.Prelude.{◌≡◌, ◌<◌, ◌∷◌, length, IfOk, OnOk, Decides};
ghost use Rattle.std.specs.List.{AllByRecursion, list_any};
ghost use Rattle.std.specs.Fmt.{decimal};
ghost use Rattle.std.specs.Str.{bytes_eq};
ghost use Rattle.model.specs.Topology.{IsIn};
ghost use Rattle.guarantee_search.specs.Spellings.{IsFilled, SpellsLetters, followed_by, spelled_key};
ghost use Rattle.state_routes.specs.Fitting.{HavePatterns};
ghost use Rattle.model.specs.Searches.{IsWord};

use model::Text;
use std::alloc::{AllocError, Global};
use word_automata::Letters;

/// Shows that a word that is not empty and has no dot is a key of one word.
fn is_word(word: &[u8])
    requires { IsFilled word.now }
    ensures { IsWord word.now }
{
    let _ = word;
}

/// Shows that each of `words`, which are not empty and have no dot, is a key of one word.
fn are_words(words: &[Text])
    requires { AllByRecursion IsFilled words.now }
    ensures { AllByRecursion IsWord words.now }
{
    for word in words {
        is_word(word.as_bytes());
    }
}

/// Returns whether one of `words` equals `word`.
fn any_word(words: &[Text], word: &[u8]) -> bool
    ensures { result ≡ list_any (λ w. bytes_eq w word.now) words.now }
{
    words.iter().any(|w| w.as_bytes() == word)
}

/// Returns whether `word` is among `words`.
fn has_word(words: &[Text], word: &[u8]) -> bool
    ensures { Decides result (IsIn word.now words.now) }
{
    any_word(words, word)
}

/// Returns the word `w` followed by `number` in decimal.
fn numbered(alloc: Global, number: usize) -> Result<Text, AllocError>
    ensures { IfOk result (λ w. w ≡ 119 ∷ decimal number) }
{
    let word = format!(in alloc; "w{number}")?;
    Text::from_slice(alloc, word.as_bytes())
}

/// Returns the first numbered word that is not among `names`.
fn other_word(alloc: Global, names: &[Text]) -> Result<Text, AllocError>
    ensures word { IfOk result (λ w. IsWord w) }
    ensures other { IfOk result (λ w. IsIn w names.now → ⊥) }
{
    for number in 0..names.len() + 1 {
        let word = numbered(alloc, number)?;
        if !has_word(names, word.as_bytes()) {
            return Ok(word);
        }
    }
    unreachable!()
}

/// Copies `words`. Fails only if an allocation fails.
pub fn copy_words(alloc: Global, words: &[Text]) -> Result<Vec<Text>, AllocError>
    ensures { IfOk result (λ made. made.items ≡ words.now) }
{
    let mut made = Vec::new(alloc);
    for word in words {
        made.push(word.clone()?)?;
    }
    Ok(made)
}

/// Returns a word for each letter: its own, and for the letter of all other words one that no pattern names. Fails only if an allocation fails.
pub fn spellings(alloc: Global, letters: &Letters) -> Result<Vec<Text>, AllocError>
    requires { HavePatterns letters.now }
    ensures { IfOk result (λ words. SpellsLetters letters.now words.items) }
{
    are_words(letters.names());
    let mut words = copy_words(alloc, letters.names())?;
    words.push(other_word(alloc, letters.names())?)?;
    Ok(words)
}

/// Appends `word` to `key`, with a dot between them unless the key is empty.
fn add_word(key: &mut Vec<u8>, word: &[u8]) -> Result<(), AllocError>
    ensures { OnOk result (key.new.items ≡ followed_by key.old.items word.now) }
{
    if !key.is_empty() {
        key.push(b'.')?;
    }
    key.extend_from_slice(word)?;
    Ok(())
}

/// Returns the key of `letters`, of which the last is the key's first word. Fails only if an allocation fails.
pub fn spelled_key(alloc: Global, words: &[Text], letters: &[usize]) -> Result<Vec<u8>, AllocError>
    requires { AllByRecursion (λ a. a < length words.now) letters.now }
    ensures { IfOk result (λ key. key.items ≡ spelled_key words.now letters.now) }
{
    let mut key = Vec::new(alloc);
    let mut left = letters.len();
    while left > 0 {
        left -= 1;
        add_word(&mut key, words[letters[left]].as_bytes())?;
    }
    Ok(key)
}
