ghost use Rattle.mama_laws_causal.specs.Causal.{RoundsAreCausal};

/// A law: in the record of a run in rounds there is one order of all entries and client lines that keeps each actor's own
/// order and has each event taken after it was put.
pub fn rounds_are_causal()
    ensures { RoundsAreCausal }
{}
