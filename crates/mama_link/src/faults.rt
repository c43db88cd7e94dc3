ghost use Rattle.std.specs.Prelude.{◌≡◌, ◌≢◌, ◌==◌, ◌+◌, ◌<◌, ◌^◌, ◌++◌, ◌∷◌, ℕ, [], length, None, Some, All, IfOk, OnOk, IfErr, if◌then◌else◌};
ghost use Rattle.std.specs.Ordering.{nat_cmp};
ghost use Rattle.std.specs.BTreeMap.{get, IsOrdered};
ghost use Rattle.mama_link.specs.declared.faults.FaultsFault.TheVariants.{OutOfMemory as NoMemory};
ghost use Rattle.mama_link.specs.Faults.{fault_at, first_fault, is_zero_hold};
ghost use Rattle.mama_link.specs.Table.{table_of, slots_at, slots_due, IsTable};

use mama_memory::OutOfMemory;
use std::alloc::{AllocError, AllocFailed, Global};
use std::collections::BTreeMap;
use std::error::Error;
use std::fmt;
use std::marker::Model;
use std::sync::Arc;

/// What befalls one message of a link.
#[derive(Clone, Copy, Debug, PartialEq, Eq, Hash)]
pub enum Fault {
    /// It does not come out.
    Lose,
    /// It comes out twice.
    Dup,
    /// It comes out after the own output of the message that is this many later, or at the link's end.
    Hold(u32),
    /// It comes out in its place with this many of its first bytes, or whole where it has no more.
    Cut(u32),
}

/// A fault for the message of this number. A link numbers its messages from 1.
#[derive(Clone, Copy, Debug, PartialEq, Eq, Hash)]
pub struct FaultRow {
    pub index: u32,
    pub fault: Fault,
}

/// Why a list of rows is refused.
#[derive(Clone, Copy, Debug, PartialEq, Eq)]
pub enum FaultsFault {
    /// An earlier row has the same index.
    Repeated { index: u32 },
    /// The row at this index holds by 0.
    ZeroHold { index: u32 },
    /// A row has the index 0, which no message has.
    ZeroIndex,
    /// No memory was found.
    OutOfMemory,
}

impl fmt::Display for FaultsFault {
    fn fmt<W: fmt::Write>(&self, f: &mut fmt::Formatter<W>) -> fmt::Result {
        match self {
            FaultsFault::Repeated { index } => write!(f, "message {index} has two faults"),
            FaultsFault::ZeroHold { index } => write!(f, "message {index} is held by 0"),
            FaultsFault::ZeroIndex => write!(f, "a fault for message 0"),
            FaultsFault::OutOfMemory => write!(f, "out of memory"),
        }
    }
}

impl Error for FaultsFault {}

impl From<AllocError> for FaultsFault {
    ghost from_gives = { λ _ e. e ≡ NoMemory };

    fn from(_error: AllocError) -> FaultsFault {
        FaultsFault::OutOfMemory
    }
}

impl<T: Drop> From<AllocFailed<T>> for FaultsFault {
    ghost from_gives = { λ _ e. e ≡ NoMemory };

    fn from(_error: AllocFailed<T>) -> FaultsFault {
        FaultsFault::OutOfMemory
    }
}

impl FaultRow {
    /// What is bad about a row, told whether an earlier row has its index.
    fn fault(&self, repeated: bool) -> Option<FaultsFault>
        ensures { result ≡ (if self.now.index == 0 then Some FaultsFault.ZeroIndex else (if is_zero_hold self.now.fault then Some (FaultsFault.ZeroHold self.now.index) else (if repeated then Some (FaultsFault.Repeated self.now.index) else None))) }
    {
        let index = self.index;
        if index == 0 {
            Some(FaultsFault::ZeroIndex)
        } else if self.fault == Fault::Hold(0) {
            Some(FaultsFault::ZeroHold { index })
        } else if repeated {
            Some(FaultsFault::Repeated { index })
        } else {
            None
        }
    }
}

/// The rows by their indexes, or what is bad about the first bad one.
fn by_index(alloc: Global, rows: &[FaultRow]) -> Result<BTreeMap<u32, Fault>, FaultsFault>
    ensures entries { IfOk result (λ table. table.entries ≡ table_of rows.now) }
    ensures found { IfOk result (λ table. (i : ℕ) → get nat_cmp table i ≡ fault_at rows.now i) }
    ensures ordered { IfOk result (IsOrdered nat_cmp) }
    ensures sound { OnOk result (first_fault rows.now ≡ None) }
    ensures refused { IfErr result (λ fault. fault ≢ NoMemory → first_fault rows.now ≡ Some fault) }
{
    let mut table = BTreeMap::new(alloc);
    for row in rows {
        if let Some(fault) = row.fault(table.contains_key(&row.index)) {
            return Err(fault);
        }
        table.insert(row.index, row.fault)?;
    }
    Ok(table)
}

/// The rows in the order of their indexes.
fn in_order(alloc: Global, by_index: &BTreeMap<u32, Fault>) -> Result<Vec<(u32, Fault)>, AllocError>
    ensures entries { IfOk result (λ table. table.items ≡ by_index.now.entries) }
    ensures found { IfOk result (λ table. All (λ entry. get nat_cmp by_index.now entry.0 ≡ Some entry.1) table.items) }
{
    let mut table = Vec::new(alloc);
    for (index, fault) in by_index.iter() {
        table.push((*index, *fault))?;
    }
    Ok(table)
}

/// The slots of the messages that are due at a place, by place.
fn by_place(alloc: Global, table: &[(u32, Fault)]) -> Result<BTreeMap<u64, Vec<usize>>, AllocError>
    ensures { IfOk result (λ dues. (place : ℕ) → slots_at dues place ≡ slots_due place 0 table.now) }
{
    let mut dues = BTreeMap::new(alloc);
    for (slot, (index, fault)) in table.iter().enumerate() {
        if let Fault::Hold(by) = fault {
            add_due(alloc, &mut dues, *index as u64 + *by as u64, slot)?;
        }
    }
    Ok(dues)
}

/// Adds a slot after those that are due at a place.
fn add_due(
    alloc: Global,
    dues: &mut BTreeMap<u64, Vec<usize>>,
    place: u64,
    slot: usize,
) -> Result<(), AllocError>
    ensures { OnOk result ((q : ℕ) → slots_at dues.new q ≡ (if place == q then slots_at dues.old q ++ slot ∷ [] else slots_at dues.old q)) }
{
    match dues.get_mut(&place) {
        Some(slots) => slots.push(slot)?,
        None => {
            let mut slots = Vec::new(alloc);
            slots.push(slot)?;
            dues.insert(place, slots)?;
        }
    }
    Ok(())
}

// Rows, none of which is bad, with what finds them by their indexes and by the places at which messages are due. They are
// seen as the list of the rows.
#[derive(Drop)]
struct Indexed {
    rows: Vec<FaultRow>,
    table: Vec<(u32, Fault)>,
    dues: BTreeMap<u64, Vec<usize>>,
}

impl Model for Indexed {
    ghost use Rattle.std.specs.Prelude.{List};
    ghost use Rattle.mama_link.specs.declared.faults.FaultRow.{FaultRow};

    ghost Value = { List FaultRow };

    ghost use Rattle.mama_link.specs.Table.{IsIndexed};

    ghost view = { λ f. f.rows.items };

    ghost invariant = { λ f. IsIndexed f.rows.items f.table.items f.dues };
}

impl Indexed {
    fn new(alloc: Global, rows: Vec<FaultRow>) -> Result<Indexed, FaultsFault>
        ensures rows { IfOk result (λ indexed. indexed ≡ rows.items) }
        ensures sound { OnOk result (first_fault rows.items ≡ None) }
        ensures refused { IfErr result (λ fault. fault ≢ NoMemory → first_fault rows.items ≡ Some fault) }
    {
        let table = in_order(alloc, &by_index(alloc, rows.as_slice())?)?;
        let dues = by_place(alloc, table.as_slice())?;
        Ok(Indexed { rows, table, dues })
    }

    fn rows(&self) -> &[FaultRow]
        ensures { result.now ≡ self.now }
    {
        self.rows.as_slice()
    }

    fn table(&self) -> &[(u32, Fault)]
        ensures table { result.now ≡ table_of self.now }
        ensures entries { IsTable self.now (table_of self.now) }
    {
        self.table.as_slice()
    }

    fn due_at(&self, place: u64) -> &[usize]
        ensures due { result.now ≡ slots_due place 0 (table_of self.now) }
        ensures few { length result.now < 2 ^ 63 }
    {
        match self.dues.get(&place) {
            Some(slots) => slots.as_slice(),
            None => &[],
        }
    }
}

/// Fault rows with distinct indexes from 1, none of which holds by 0. They are seen as the list of the rows. Copies share
/// them.
#[derive(Drop)]
pub struct Faults {
    // None where there are no rows, so that these take no memory.
    block: Option<Arc<Indexed>>,
}

impl Model for Faults {
    ghost use Rattle.std.specs.Prelude.{List};
    ghost use Rattle.mama_link.specs.declared.faults.FaultRow.{FaultRow};

    ghost Value = { List FaultRow };

    ghost use Rattle.mama_link.specs.Table.{rows_of};

    ghost view = { λ f. rows_of f.block };
}

impl Faults {
    /// No faults. It takes no memory.
    pub fn none(_alloc: Global) -> Faults
        ensures { result ≡ [] }
    {
        Faults { block: None }
    }

    /// The faults of these rows, or what is bad about the first row that is: its index is 0, else it holds by 0,
    /// else an earlier row has its index.
    pub fn new(alloc: Global, rows: Vec<FaultRow>) -> Result<Faults, FaultsFault>
        ensures rows { IfOk result (λ faults. faults ≡ rows.items) }
        ensures sound { OnOk result (first_fault rows.items ≡ None) }

        // Short of memory, a refusal names what is bad about the first bad row.
        ensures refused { IfErr result (λ fault. fault ≢ NoMemory → first_fault rows.items ≡ Some fault) }
    {
        if rows.is_empty() {
            return Ok(Faults::none(alloc));
        }
        let block = Arc::new(alloc, Indexed::new(alloc, rows)?)?;
        Ok(Faults { block: Some(block) })
    }

    /// The rows in their order.
    pub fn rows(&self) -> &[FaultRow]
        ensures { result.now ≡ self.now }
    {
        match &self.block {
            None => &[],
            Some(block) => block.rows(),
        }
    }

    /// The rows in the order of their indexes.
    pub(crate) fn table(&self) -> &[(u32, Fault)]
        ensures table { result.now ≡ table_of self.now }
        ensures entries { IsTable self.now (table_of self.now) }
    {
        match &self.block {
            None => &[],
            Some(block) => block.table(),
        }
    }

    /// The numbers of the table's entries whose messages are due at a place.
    pub(crate) fn due_at(&self, place: u64) -> &[usize]
        ensures due { result.now ≡ slots_due place 0 (table_of self.now) }
        ensures entries { IsTable self.now (table_of self.now) }
        ensures few { length result.now < 2 ^ 63 }
    {
        let _entries = self.table();
        match &self.block {
            None => &[],
            Some(block) => block.due_at(place),
        }
    }

    /// Equal faults, which share the rows. The error says that no more copies can be counted: it takes no memory.
    pub fn try_clone(&self) -> Result<Faults, OutOfMemory>
        ensures { IfOk result (λ copy. copy ≡ self.now) }
    {
        match &self.block {
            None => Ok(Faults { block: None }),
            Some(block) => Ok(Faults {
                block: Some(Arc::try_clone(block)?),
            }),
        }
    }
}

impl fmt::Debug for Faults {
    fn fmt<W: fmt::Write>(&self, f: &mut fmt::Formatter<W>) -> fmt::Result {
        let rows = self.rows();
        write!(f, "{rows:?}")
    }
}

impl PartialEq for Faults {
    ghost use Rattle.std.specs.Prelude.{◌≡◌};
    ghost use Rattle.std.specs.Cmp.{partial_equiv_from_equiv};
    ghost use Rattle.mama_link.specs.Equality.{same_rows};
    ghost use Rattle.mama_link.specs.EqualityLaws.{same_rows_equivalence};

    ghost eq = { same_rows };

    ghost laws = { partial_equiv_from_equiv same_rows_equivalence };

    fn eq(&self, other: &Faults) -> bool
        ensures { result ≡ same_rows self.now other.now }
    {
        self.rows() == other.rows()
    }
}

impl Eq for Faults {
    ghost use Rattle.mama_link.specs.EqualityLaws.{same_rows_equivalence};

    ghost laws = { same_rows_equivalence };
}
