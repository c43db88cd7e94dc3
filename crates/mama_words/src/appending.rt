ghost use Rattle.std.specs.Prelude.{◌≡◌, take, OnOk, OnErr};

use mama_memory::OutOfMemory;

// Takes back what was appended behind this place, where no memory was found for the rest of it.
pub(crate) fn all_or_nothing(
    printed: Result<(), OutOfMemory>,
    start: usize,
    out: &mut Vec<u8>,
) -> Result<(), OutOfMemory>
    ensures same { result ≡ printed }
    ensures ok { OnOk printed (out.new.items ≡ out.old.items) }
    ensures err { OnErr printed (out.new.items ≡ take start out.old.items) }
{
    if printed.is_err() {
        out.truncate(start);
    }
    printed
}
