// Sets of numbers, stored as words with one bit for each number. A number is the number of a net, or the
// place of a control in the list of useful controls. A control is useful if it is safe alone and enables a
// tested driver.
ghost use Rattle.std.specs.Prelude.{◌≡◌, ◌≤◌, ◌<◌, ◌+◌, ◌*◌, ◌/◌, ◌==◌, ◌&&◌, ◌||◌, ℕ, Bool, not, false, true, length, replicate, slice_index_or, All, MatchOption, IfOk};
ghost use Rattle.net_classes.specs.Pairs.{AreWordBits};
ghost use Rattle.driver_passes.specs.inner.Drafts.{has_number};
ghost use Rattle.driver_passes.specs.inner.NumberSets.{IsFirstNumber, has_bit, is_in, is_of_word};

use std::alloc::{AllocError, Global};
use std::marker::Model;

/// A set of numbers. Its value in contracts is the list of its words. Number `n` is in the set if bit `n % 64` of word
/// `n / 64` is 1.
#[derive(Drop)]
pub struct NumberSet {
    words: Vec<u64>,
}

impl Model for NumberSet {
    ghost use Rattle.std.specs.Prelude.{List, ℕ};

    ghost Value = { List ℕ };

    ghost view = { λ a. a.words.items };
}

/// Returns `count` words with all bits 0.
fn blank_words(alloc: Global, count: usize) -> Result<Vec<u64>, AllocError>
    ensures { IfOk result (λ words. words.items ≡ replicate count 0) }
{
    let words = vec![in alloc; 0; count]?;
    Ok(words)
}

/// Returns word `number`, or 0 if there is no such word.
fn word_at(words: &[u64], number: usize) -> u64
    ensures { result ≡ slice_index_or words.now number 0 }
{
    match words.get(number) {
        None => 0,
        Some(word) => *word,
    }
}

/// Returns whether the bit at `place` of the word is 1. `place` must be below 64.
pub fn has_bit(word: u64, place: usize) -> bool
    requires { place < 64 }
    ensures { result ≡ has_bit word place }
{
    word >> place & 1 == 1
}

/// Sets all bits of all words.
fn set_all(words: &mut [u64])
    ensures { (n : ℕ) → n / 64 < length words.old → is_in words.new n ≡ true }
{
    for word in words.iter_mut() {
        *word = u64::MAX;
    }
}

/// Clears each bit that is set in `others`, from word `first` on.
fn clear_from(words: &mut [u64], others: &[u64], first: usize)
    ensures { (n : ℕ) → first ≤ n / 64 →
        is_in words.new n ≡ (is_in words.old n && not (is_in others.now n)) }
{
    for i in first..words.len() {
        words[i] &= !word_at(others, i);
    }
}

/// Clears in word `number` the bits that are set in `bits`. Does nothing if there is no such word.
fn clear_bits(words: &mut [u64], number: usize, bits: u64)
    ensures { (n : ℕ) → is_in words.new n ≡ (is_in words.old n && not (is_of_word number bits n)) }
{
    if number < words.len() {
        words[number] &= !bits;
    }
}

/// Sets each bit that is set in `others`. Both slices must have the same length.
fn set_from(words: &mut [u64], others: &[u64])
    requires { length others.now ≡ length words.old }
    ensures { (n : ℕ) → is_in words.new n ≡ (is_in others.now n || is_in words.old n) }
{
    for (i, other) in others.iter().enumerate() {
        words[i] |= *other;
    }
}

/// Clears each bit that is not set in `others`.
fn clear_others(words: &mut [u64], others: &[u64])
    ensures { (n : ℕ) → is_in words.new n ≡ (is_in words.old n && is_in others.now n) }
{
    for i in 0..words.len() {
        words[i] &= word_at(others, i);
    }
}

/// Sets the bit of the number if `holds` is true. `words` must have the word of this bit.
fn set_if(words: &mut [u64], number: usize, holds: bool)
    requires { number / 64 < length words.old }
    ensures { (n : ℕ) → is_in words.new n ≡ ((n == number && holds) || is_in words.old n) }
{
    if holds {
        words[number / 64] |= 1 << (number % 64);
    }
}

impl NumberSet {
    /// Returns the empty set, with room for the numbers below `numbers`.
    pub fn new(alloc: Global, numbers: usize) -> Result<NumberSet, AllocError>
        ensures room { IfOk result (λ set. length set ≡ numbers / 64 + 1) }
        ensures none { IfOk result (λ set. (n : ℕ) → is_in set n ≡ false) }
    {
        let words = blank_words(alloc, numbers / 64 + 1)?;
        Ok(NumberSet { words })
    }

    /// Returns whether the number is in the set.
    pub fn has(&self, number: usize) -> bool
        ensures { result ≡ is_in self.now number }
    {
        has_bit(word_at(&self.words, number / 64), number % 64)
    }

    /// Returns word `number`, or 0 if there is no such word. Bit `i` is 1 if the number `64 * number + i` is in the
    /// set.
    pub fn word(&self, number: usize) -> u64
        ensures word { result ≡ slice_index_or self.now number 0 }
        ensures bits { AreWordBits (is_in self.now) number result }
    {
        word_at(&self.words, number)
    }

    /// Adds the number if `holds` is true. The set must have room for the number.
    pub fn insert_if(&mut self, number: usize, holds: bool)
        requires { number / 64 < length self.old }
        ensures room { length self.new ≡ length self.old }
        ensures numbers { (n : ℕ) → is_in self.new n
            ≡ ((n == number && holds) || is_in self.old n) }
    {
        set_if(&mut self.words, number, holds);
    }

    /// Returns a copy of the set.
    pub fn copy(&self, alloc: Global) -> Result<NumberSet, AllocError>
        ensures { IfOk result (λ set. set ≡ self.now) }
    {
        let words = Vec::from_slice(alloc, &self.words)?;
        Ok(NumberSet { words })
    }

    /// Adds these numbers. The set must have room for them.
    pub fn insert_all(&mut self, numbers: &[u32])
        requires { All (λ n. n / 64 < length self.old) numbers.now }
        ensures room { length self.new ≡ length self.old }
        ensures numbers { (n : ℕ) → is_in self.new n
            ≡ (has_number numbers.now n || is_in self.old n) }
    {
        for number in numbers {
            self.insert_if(*number as usize, true);
        }
    }

    /// Adds every number for which there is room.
    pub fn fill(&mut self)
        ensures room { length self.new ≡ length self.old }
        ensures numbers { (n : ℕ) → n / 64 < length self.old → is_in self.new n ≡ true }
    {
        set_all(&mut self.words);
    }

    /// Removes the numbers that are in `others` and are at least `64 * first`.
    pub fn take_out(&mut self, others: &NumberSet, first: usize)
        ensures room { length self.new ≡ length self.old }
        ensures numbers { (n : ℕ) → first ≤ n / 64 →
            is_in self.new n ≡ (is_in self.old n && not (is_in others.now n)) }
    {
        clear_from(&mut self.words, &others.words, first);
    }

    /// Removes the numbers of word `word` whose bits are set in `bits`.
    pub fn take_out_bits(&mut self, word: usize, bits: u64)
        ensures { (n : ℕ) → is_in self.new n ≡ (is_in self.old n && not (is_of_word word bits n)) }
    {
        clear_bits(&mut self.words, word, bits);
    }

    /// Removes the number.
    pub fn remove(&mut self, number: usize)
        ensures { (n : ℕ) → is_in self.new n ≡ (is_in self.old n && not (n == number)) }
    {
        self.take_out_bits(number / 64, 1 << (number % 64));
    }

    /// Adds the numbers of `others`. Both sets must have the same number of words.
    pub fn add_all(&mut self, others: &NumberSet)
        requires { length others.now ≡ length self.old }
        ensures room { length self.new ≡ length self.old }
        ensures numbers { (n : ℕ) → is_in self.new n ≡ (is_in others.now n || is_in self.old n) }
    {
        set_from(&mut self.words, &others.words);
    }

    /// Removes the numbers that are not in `others`.
    pub fn keep_only(&mut self, others: &NumberSet)
        ensures room { length self.new ≡ length self.old }
        ensures numbers { (n : ℕ) → is_in self.new n ≡ (is_in self.old n && is_in others.now n) }
    {
        clear_others(&mut self.words, &others.words);
    }

    /// Returns the first number of the set in `from..end`. If the set has no number there, the result is at least
    /// `from` and at least `end`. In both cases, the set has no number in `from..result`.
    pub fn first_from(&self, from: usize, end: usize) -> usize
        ensures passed { (n : ℕ) → from ≤ n → n < result → is_in self.now n ≡ false }
        ensures found { result < end → is_in self.now result ≡ true }
        ensures further { from ≤ result }
    {
        let mut number = from;
        while number < end {
            if let Some(found) = next_in(self.word(number / 64), number) {
                return found;
            }
            number = past_word(number, end);
        }
        number
    }

    /// Like `first_from`, but skips the numbers that are in `others`.
    pub fn first_outside(&self, others: &NumberSet, from: usize, end: usize) -> usize
        ensures passed { (n : ℕ) → from ≤ n → n < result →
            (is_in self.now n && not (is_in others.now n)) ≡ false }
        ensures found { result < end →
            (is_in self.now result && not (is_in others.now result)) ≡ true }
        ensures further { from ≤ result }
    {
        let mut number = from;
        while number < end {
            if let Some(found) = next_in(self.word_less(others, number / 64), number) {
                return found;
            }
            number = past_word(number, end);
        }
        number
    }

    /// Returns word `number` of the set without the bits that are set in word `number` of `others`.
    fn word_less(&self, others: &NumberSet, number: usize) -> u64
        ensures { AreWordBits (λ n. is_in self.now n && not (is_in others.now n)) number result }
    {
        self.word(number) & !others.word(number)
    }
}

/// Returns `end`, or the first number after the word of `number` if that is smaller. `number` must be below `end`.
fn past_word(number: usize, end: usize) -> usize
    requires { number < end }
    ensures further { number < result }
    ensures within { result ≤ 64 * (number / 64 + 1) }
{
    let last = 64 * (number / 64) + 63;
    if last < end { last + 1 } else { end }
}

/// Returns the place of the lowest bit from `place` on that is set in the word, or None if there is no such bit.
/// `place` must be below 64.
fn lowest_from(word: u64, place: usize) -> Option<usize>
    requires { place < 64 }
    ensures { MatchOption result
        ((i : ℕ) → place ≤ i → i < 64 → has_bit word i ≡ false)
        (λ i. IsFirstNumber (has_bit word) place i × (i < 64)) }
{
    let rest = word & (u64::MAX << place);
    if rest == 0 {
        None
    } else {
        Some(rest.trailing_zeros() as usize)
    }
}

/// Returns the first number from `from` on whose bit is set in `word`, or None if there is no such bit. `word` must be
/// word `from / 64` of a set.
pub fn next_in(word: u64, from: usize) -> Option<usize>
    ensures { (passes : ℕ → Bool) → AreWordBits passes (from / 64) word → MatchOption result
        ((n : ℕ) → from ≤ n → n < 64 * (from / 64 + 1) → passes n ≡ false)
        (λ n. IsFirstNumber passes from n) }
{
    match lowest_from(word, from % 64) {
        None => None,
        Some(place) => Some(64 * (from / 64) + place),
    }
}
