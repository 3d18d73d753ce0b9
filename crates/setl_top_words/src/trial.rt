//! The numbers of a trial.
ghost use Rattle.std.specs.Prelude.{◌≡◌, ◌≢◌, ◌≤◌, ◌∷◌, ◌++◌, [], ℕ, codes, decimal, map, string_bytes, IfSome, IfNone};
ghost use Rattle.setl_top_words.specs.Words.{SpellsTrial};

use crate::number::read_number;

/// The greatest number of nodes.
const MOST_NODES: u64 = 2000;

/// The number from 1 to 2000 that the word spells. `None` comes exactly where the word spells none.
fn read_nodes(word: &str) -> Option<u64>
    ensures number { IfSome result (λ n. word.now ≡ decimal n) }
    ensures in_range { IfSome result (λ n. (1 ≤ n) × (n ≤ 2000)) }
    ensures none { IfNone result ((n : ℕ) → 1 ≤ n → n ≤ 2000 → word.now ≢ decimal n) }
{
    let nodes = read_number(word)?;
    if 1 <= nodes && nodes <= MOST_NODES {
        Some(nodes)
    } else {
        None
    }
}

/// Reads the seed and the number of nodes behind the word of a trial, of which the last is apart. `None` comes exactly
/// where the words are no such two numbers.
pub(crate) fn read_trial(between: &[String], last: &str) -> Option<(u64, u64)>
    ensures read { IfSome result (λ trial. SpellsTrial (codes "trial" ∷ map string_bytes between.now ++ last.now ∷ []) trial.0 trial.1) }
    ensures none { IfNone result ((seed nodes : ℕ) → SpellsTrial (codes "trial" ∷ map string_bytes between.now ++ last.now ∷ []) seed nodes → ⊥) }
{
    let (seed, others) = between.split_first()?;
    if !others.is_empty() {
        return None;
    }
    let seed = read_number(seed.as_str())?;
    let nodes = read_nodes(last)?;
    Some((seed, nodes))
}
