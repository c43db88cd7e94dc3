//! The texts of three seeds.
use mama_gen::{generate, generated};
use mama_script::print;
use std::alloc::Global;
use std::test::Fail;

// Whether the text of the seed is as long as it should be, and ends so, and its script is printed as this text.
fn is_of_seed(alloc: Global, seed: u64, length: usize, end: &[u8]) -> Result<bool, Fail> {
    let text = generated(alloc, seed)?;
    let script = generate(alloc, seed)?;
    let printed = print(alloc, &script)?;
    Ok(text.len() == length && text.ends_with(end) && printed == text)
}

#[test]
fn seeds_have_their_texts(rt: HostRuntime) -> Result<(), Fail> {
    let alloc = rt.alloc();
    assert!(rt; is_of_seed(alloc, 0, 95_028, b"fault dup 208\n")?);
    assert!(rt; is_of_seed(alloc, 7, 95_093, b"fault dup 211\n")?);
    assert!(rt; is_of_seed(alloc, u64::MAX, 95_086, b"fault lose 211\n")?);
    Ok(())
}
