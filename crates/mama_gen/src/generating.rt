ghost use Rattle.std.specs.Prelude.{◌≡◌, ℕ, IfOk};
ghost use Rattle.mama_script.specs.Tree.{IsScript};
ghost use Rattle.mama_gen.specs.Generated.{script_of_seed};

use crate::text::generated;
use mama_memory::OutOfMemory;
use mama_script::{Script, ScriptFault, parse};
use std::alloc::Global;

/// What the draws from any seed make is a script: its text is accepted.
pub fn seeds_make_scripts()
    ensures { (seed : ℕ) → IsScript (script_of_seed seed) }
{}

/// The script that the draws from this seed make.
pub fn generate(alloc: Global, seed: u64) -> Result<Script, OutOfMemory>
    ensures { IfOk result (λ script. script ≡ script_of_seed seed) }
{
    seeds_make_scripts();
    let text = generated(alloc, seed)?;
    match parse(alloc, &text) {
        Ok(script) => Ok(script),
        Err(ScriptFault::OutOfMemory) => Err(OutOfMemory),
        Err(ScriptFault::Bad { .. } | ScriptFault::OverLimit { .. }) => unreachable!(),
    }
}
