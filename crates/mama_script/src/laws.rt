//! Laws of the texts of scripts.
ghost use Rattle.std.specs.Prelude.{◌≡◌, ◌≢◌, ℕ, List, Ok, Err};
ghost use Rattle.mama_script.specs.declared.fault.Flaw.{Flaw};
ghost use Rattle.mama_script.specs.declared.fault.ScriptFault.{ScriptFault};
ghost use Rattle.mama_script.specs.declared.line.Line.{Line};
ghost use Rattle.mama_script.specs.Reading.{script_in, at_line};
ghost use Rattle.mama_script.specs.First.{IsFirst};
ghost use Rattle.std.specs.Bool.{Decides};
ghost use Rattle.mama_event.specs.declared.order.PlanRow.{PlanRow};
ghost use Rattle.mama_script.specs.Reading.{AreAccepted, spelling};
ghost use Rattle.mama_script.specs.Script.{ScriptData};
ghost use Rattle.mama_script.specs.Tree.{IsScript, lines_of, script_text};

use crate::client::{ClientLine, ClientLines, QueueWord};
use crate::plan::Plan;
use crate::publisher::{PublisherLine, PublisherLines, PublisherPart};
use crate::script::Script;

/// The line that reading tells is the first that is wrong: line 1 that is another one; or a line before which all
/// lines fit, and which has the fault or passes the limit itself; or, where all lines fit, the first that names an
/// object which is not in the script, or has a group or a watch that may not be.
pub fn first_fault_is_told()
    ensures { (text : List ℕ) (line : ℕ) (found : Flaw) → script_in text ≡ Err (at_line line found) → IsFirst text line found }
{}

/// The spelling of a script is read as that script: its text is refused for no fault and no limit, and no other script
/// has it.
pub fn spelled_scripts_are_read()
    ensures read { (s : ScriptData) → IsScript s → script_in (script_text s) ≡ Ok (lines_of s) }
    ensures unrefused { (text : List ℕ) (s : ScriptData) (fault : ScriptFault) → IsScript s → text ≡ script_text s → script_in text ≢ Err fault }
    ensures only { (s t : ScriptData) → IsScript s → IsScript t → script_text s ≡ script_text t → s ≡ t }
{}

/// What is read are lines that are accepted, and the text is their spelling.
pub fn lines_that_are_read_are_accepted()
    ensures { (text : List ℕ) (lines : List Line) → script_in text ≡ Ok lines → AreAccepted lines × (text ≡ spelling lines) }
{}

/// `==` of scripts and their parts holds exactly where both sides are the same data.
pub fn scripts_are_compared_exactly()
    ensures queue { (a b : QueueWord) → Decides (⟦<QueueWord as PartialEq>⟧.eq a b) (a ≡ b) }
    ensures plan { (a b : List PlanRow) → Decides (⟦<Plan as PartialEq>⟧.eq a b) (a ≡ b) }
    ensures client_line { (a b : ClientLine) → Decides (⟦<ClientLine as PartialEq>⟧.eq a b) (a ≡ b) }
    ensures client_lines { (a b : List ClientLine) → Decides (⟦<ClientLines as PartialEq>⟧.eq a b) (a ≡ b) }
    ensures publisher_line { (a b : PublisherLine) → Decides (⟦<PublisherLine as PartialEq>⟧.eq a b) (a ≡ b) }
    ensures publisher_lines { (a b : List PublisherLine) → Decides (⟦<PublisherLines as PartialEq>⟧.eq a b) (a ≡ b) }
    ensures publisher { (a b : PublisherPart) → Decides (⟦<PublisherPart as PartialEq>⟧.eq a b) (a ≡ b) }
    ensures script { (a b : ScriptData) → Decides (⟦<Script as PartialEq>⟧.eq a b) (a ≡ b) }
{}
