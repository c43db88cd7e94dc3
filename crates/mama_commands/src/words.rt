ghost use Rattle.std.specs.Prelude.{◌≡◌, ◌≤◌, [], ◌∷◌, map, string_bytes, IfSome};
ghost use Rattle.mama_commands.specs.Words.{workers_in, soak_in, seed_and_workers};

use mama_words::{read_between, read_number};

/// The number of workers where the words are play and that number.
pub(crate) fn workers_of(words: &[String]) -> Option<u32>
    ensures value { result ≡ workers_in (map string_bytes words.now) }
    ensures within { IfSome result (λ workers. (1 ≤ workers) × (workers ≤ 64)) }
{
    match words {
        [word, number] => workers_with(word.as_str(), number.as_str()),
        _ => None,
    }
}

/// The number of workers that a second word is, where the first is play.
fn workers_with(name: &str, word: &str) -> Option<u32>
    ensures value { result ≡ workers_in (name.now ∷ word.now ∷ []) }
    ensures within { IfSome result (λ workers. (1 ≤ workers) × (workers ≤ 64)) }
{
    if name != "play" {
        return None;
    }
    let workers = read_between(1, 64, word.as_bytes())?;
    Some(workers as u32)
}

/// The seed and the number of workers where the words are soak and these.
pub(crate) fn soak_of(words: &[String]) -> Option<(u64, u32)>
    ensures value { result ≡ soak_in (map string_bytes words.now) }
    ensures within { IfSome result (λ soak. (1 ≤ soak.1) × (soak.1 ≤ 64)) }
{
    match words {
        [word, seed, number] => soak_with(word.as_str(), seed.as_str(), number.as_str()),
        _ => None,
    }
}

/// The seed and the number of workers that a second and a third word are, where the first is soak.
fn soak_with(name: &str, seed: &str, number: &str) -> Option<(u64, u32)>
    ensures value { result ≡ soak_in (name.now ∷ seed.now ∷ number.now ∷ []) }
    ensures within { IfSome result (λ soak. (1 ≤ soak.1) × (soak.1 ≤ 64)) }
{
    if name != "soak" {
        return None;
    }
    seed_and_workers(seed, number)
}

fn seed_and_workers(seed: &str, number: &str) -> Option<(u64, u32)>
    ensures value { result ≡ seed_and_workers seed.now number.now }
    ensures within { IfSome result (λ soak. (1 ≤ soak.1) × (soak.1 ≤ 64)) }
{
    let seed = read_number(seed.as_bytes())?;
    let workers = read_between(1, 64, number.as_bytes())?;
    Some((seed, workers as u32))
}
