// Survivor words of a level, and the number of ones in them. Assumes nothing.
ghost use Rattle.std.specs.Prelude.{◌≡◌, Bool, ℕ, ◌+◌, ◌*◌, ◌<◌, ◌≤◌, ◌&&◌, length, eqb, ltb, max, position};
ghost use Rattle.std.specs.List.{fold};
ghost use Rattle.std.specs.Int.Count.{ones};
ghost use Rattle.maps.specs.Verdict.{scan};
ghost use Rattle.maps.specs.Count.{one, sum};
ghost use Rattle.maps.specs.Folded.{survives};
ghost use Rattle.maps.specs.Table.{each, listed};
ghost use Rattle.maps.specs.Survivors.{at_lambda8, word as word_of, survivors_lent, survivor_count, survivor_words};
ghost use Rattle.answers.specs.Numbers.{verdict_of};
ghost use Rattle.survivor_words.specs.Answers.{count_of_survivors};
ghost use Rattle.survivor_words.specs.Parts.{InWord, lanes, stack_of, word_bits};

use answers::{Dim, Level, Question, Refusal, Sizes};

// The largest Λ, 0 where there is none: found without a way out of the loop, so that it is found many darts at a time.
fn largest(lambda: &[u8]) -> Level
    ensures { result.0 ≡ fold max 0 lambda.now }
{
    Level(lambda.iter().fold(0, |most, own| most.max(*own)))
}

// The first dart whose Λ is above h.
fn first_above(h: Level, lambda: &[u8]) -> Option<usize>
    ensures { result ≡ position (λ own. ltb h.0 own) lambda.now }
{
    lambda.iter().position(|own| h.0 < *own)
}

// Number 8 of Λ alone, over all darts, with the level asked; the dart is sought only if there is one.
fn lambda_tested(darts: u16, h: Level, lambda: &[u8], level: Level) -> Result<(), Refusal>
    requires { length lambda.now ≡ darts }
    ensures { verdict_of result ≡ scan darts (at_lambda8 h.0 (each lambda.now) level.0) }
{
    if h < largest(lambda) {
        if let Some(d) = first_above(h, lambda) {
            return Err(Refusal::Marks(level, Dim(0), d as u16));
        }
    }
    Ok(())
}

// How many darts word w has: 64, fewer in the last, none past it.
fn in_word(darts: usize, w: usize) -> usize
    requires { w < 64 }
    ensures { InWord darts w result }
{
    darts.saturating_sub(w * 64).min(64)
}

// Word w: dart 64 w + b at bit b.
fn word(lambda: &[u8], level: Level, w: usize) -> u64
    requires { w < 64 }
    ensures { result ≡ word_of (length lambda.now) (each lambda.now) level.0 w }
{
    let first = w * 64;
    let many = in_word(lambda.len(), w);
    let mut x: u64 = 0;
    // By index: bit b is that of dart 64 w + b.
    for b in 0..many {
        if !answers::is_gone(answers::lambda_at(lambda, first + b), level) {
            x = x | (1u64 << b);
        }
    }
    x
}

// Eight bytes in one number, the first lowest: one load.
fn eight_bytes(part: &[u8]) -> u64
    requires { 8 ≤ length part.now }
    ensures { result ≡ lanes (each part.now) }
{
    u64::from_le_bytes([
        part[0], part[1], part[2], part[3], part[4], part[5], part[6], part[7],
    ])
}

// The signs of eight darts: 128 in a byte whose dart is on the level. No Λ is above 32, so a sum that reaches 128 tells it of eight darts at once.
fn eight_signs(part: &[u8], level: Level) -> u64
    requires { (8 ≤ length part.now) × (level.0 ≤ 32) × ((k : ℕ) → k < 8 → each part.now k ≤ 32) }
    ensures { result ≡ lanes (λ k. one (survives (each part.now) level.0 k)) * 128 }
{
    let more = (128 - u64::from(level.0)) * 0x0101010101010101u64;
    (eight_bytes(part) + more) & 0x8080808080808080u64
}

// The sign of dart 8j + k at bit j of byte k, of the first 64 darts.
fn stacked(part: &[u8], level: Level) -> u64
    requires { (64 ≤ length part.now) × (level.0 ≤ 32) × ((d : ℕ) → d < 64 → each part.now d ≤ 32) }
    ensures { result ≡ stack_of (survives (each part.now) level.0) 8 }
{
    let mut stack: u64 = 0;
    for j in 0..8usize {
        let start = 8 * j;
        stack = stack / 2 + eight_signs(&part[start..], level);
    }
    stack
}

// Rows and columns of 8 times 8 bits exchanged, in squares of 2, of 4 and of 8: no dart's bit is moved by itself.
fn turned(x: u64) -> u64
    ensures { (t : ℕ → Bool) → x ≡ stack_of t 8 → result ≡ word_bits t }
{
    let two = (x & 0xAA55AA55AA55AA55u64)
        + (x & 0x00AA00AA00AA00AAu64) * 128
        + (x / 128 & 0x00AA00AA00AA00AAu64);
    let four = (two & 0xCCCC3333CCCC3333u64)
        + (two & 0x0000CCCC0000CCCCu64) * 16384
        + (two / 16384 & 0x0000CCCC0000CCCCu64);
    (four & 0xF0F0F0F00F0F0F0Fu64)
        + (four & 0xF0F0F0F0u64) * 268435456
        + (four / 268435456 & 0xF0F0F0F0u64)
}

// The word of 64 darts from a place on.
fn full_word(lambda: &[u8], level: Level, first: usize) -> u64
    requires { (first + 64 ≤ length lambda.now) × (level.0 ≤ 32) × ((d : ℕ) → d < length lambda.now → each lambda.now d ≤ 32) }
    ensures { result ≡ word_bits (λ b. survives (each lambda.now) level.0 (first + b)) }
{
    turned(stacked(&lambda[first..], level))
}

// Word w: 64 darts at once, or one after the other where some are missing.
fn any_word(lambda: &[u8], level: Level, w: usize) -> u64
    requires { (w < 64) × (level.0 ≤ 32) × ((d : ℕ) → d < length lambda.now → each lambda.now d ≤ 32) }
    ensures { result ≡ word_of (length lambda.now) (each lambda.now) level.0 w }
{
    let first = w * 64;
    if first + 64 <= lambda.len() {
        return full_word(lambda, level, first);
    }
    word(lambda, level, w)
}

// All 64 words, and the number of ones in them.
fn fill_words(lambda: &[u8], level: Level, words: &mut [u64]) -> u32
    requires { (length words.old ≡ 64) × (level.0 ≤ 32) × ((d : ℕ) → d < length lambda.now → each lambda.now d ≤ 32) }
    ensures answer { result ≡ sum (λ w. ones (word_of (length lambda.now) (each lambda.now) level.0 w)) 64 }
    ensures words_left { words.new ≡ listed (word_of (length lambda.now) (each lambda.now) level.0) 64 }
{
    let mut count: u32 = 0;
    for (w, entry) in words.iter_mut().enumerate() {
        let x = any_word(lambda, level, w);
        *entry = x;
        count = count + u64::count_ones(x);
    }
    count
}

// Have Λ and the words the exact lengths?
fn both_fit(darts: u16, lambda: &[u8], words: &[u64]) -> bool
    ensures { result ≡ (eqb (length lambda.now) darts && eqb (length words.now) 64) }
{
    answers::row_fits(darts, lambda.len()) && words.len() == 64
}

// Survivor words of a level, with the survivor count: the number of ones in them. After a refusal nothing lent has changed.
pub fn survivors(
    darts: u16,
    h: Level,
    lambda: &[u8],
    level: Level,
    words: &mut [u64],
) -> Result<u32, Refusal>
    ensures verdict { verdict_of result ≡ survivors_lent darts h.0 lambda.now level.0 words.old }
    ensures count { count_of_survivors result ≡ survivor_count darts h.0 lambda.now level.0 words.old }
    ensures words_left { words.new ≡ survivor_words darts h.0 lambda.now level.0 words.old }
{
    let fit = both_fit(darts, lambda, words);
    let question = Question {
        level,
        involution: Dim(0),
        dart: 0,
    };
    let sizes = Sizes {
        n: Dim(1),
        h,
        darts,
    };
    answers::asked(sizes, fit, question)?;
    lambda_tested(darts, h, lambda, level)?;
    let count = fill_words(lambda, level, words);
    Ok(count)
}
