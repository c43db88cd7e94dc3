ghost use Rattle.std.specs.Prelude.{◌≡◌, ◌≤◌, length, option_to_list};
ghost use Rattle.mama_bridge.specs.Placed.{present};

/// How many items an entry has: one or none.
fn size<T>(entry: &Option<T>) -> usize
    ensures len { result ≡ length (option_to_list entry.now) }
    ensures small { result ≤ 1 }
{
    match entry {
        Some(_) => 1,
        None => 0,
    }
}

/// How many entries are not empty.
pub(crate) fn count<T>(entries: &Vec<Option<T>>) -> usize
    ensures { result ≡ length (present entries.now.items) }
{
    let mut count: usize = 0;
    for i in 0..entries.len() {
        count += size(&entries[i]);
    }
    count
}
