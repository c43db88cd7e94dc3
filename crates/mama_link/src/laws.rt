ghost use Rattle.std.specs.Prelude.{◌≡◌, List};
ghost use Rattle.std.specs.Bool.{Decides};
ghost use Rattle.mama_link.specs.Laws.{PassesAll, SharesOut, LosesNothing, AtMostTwice, CutsKeepAll, LongCutsAreNone};

use crate::faults::{Fault, FaultRow, Faults};

/// Without rows a link is the identity, whatever a cut would leave. The contract is the law; the call does nothing.
pub fn passes_all<T>()
    ensures { PassesAll T }
{}

/// What comes out is, in some order, each message as often as its fault says: not at all where it is lost, twice where
/// it is repeated, once where it is held, cut or has no fault. The contract is the law; the call does nothing.
pub fn shares_out<T>()
    ensures { SharesOut T }
{}

/// Where no row loses a message, nothing is lost: what passes a test that no cut changes comes out. The contract is the
/// law; the call does nothing.
pub fn loses_nothing<T>()
    ensures { LosesNothing T }
{}

/// Each message comes out at most twice. The contract is the law; the call does nothing.
pub fn at_most_twice<T>()
    ensures { AtMostTwice T }
{}

/// Nothing is lost, repeated or moved by a cut: what comes out is, one by one, what would come out without the cuts, each
/// whole or cut. The contract is the law; the call does nothing.
pub fn cuts_keep_all<T>()
    ensures { CutsKeepAll T }
{}

/// A cut that changes nothing of its message is none: so it is where it keeps at least as many bytes as that has. The contract is the law; the call does nothing.
pub fn long_cuts_are_none<T>()
    ensures { LongCutsAreNone T }
{}

/// `==` of faults, of rows and of lists of rows holds exactly where both sides are the same data. The contract is the
/// law; the call does nothing.
pub fn faults_are_compared_exactly()
    ensures fault { (a b : Fault) → Decides (⟦<Fault as PartialEq>⟧.eq a b) (a ≡ b) }
    ensures row { (a b : FaultRow) → Decides (⟦<FaultRow as PartialEq>⟧.eq a b) (a ≡ b) }
    ensures faults { (a b : List FaultRow) → Decides (⟦<Faults as PartialEq>⟧.eq a b) (a ≡ b) }
{}
