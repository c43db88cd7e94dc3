ghost use Rattle.std.specs.Prelude.{List};
ghost use Rattle.mama_event.specs.declared.shape.Shape.{Shape};
ghost use Rattle.mama_rules_services.specs.Bridge.{BridgeEvent};
ghost use Rattle.mama_laws_bridge.specs.Laws.{RowsAreLive, FlagsTell, TableTells, TableGrows};

/// A law: the rows of a table are the live subscriptions in order of joining and the open inboxes in order of opening,
/// each once.
pub fn rows_are_live()
    ensures { (shape : Shape) (es : List BridgeEvent) → RowsAreLive shape es }
{}

/// A law: the flags of a table tell whether settling has begun, whether the ending has come, and whether every queue
/// said its last.
pub fn flags_tell()
    ensures { (shape : Shape) (es : List BridgeEvent) → FlagsTell shape es }
{}

/// A law: by its table a bridge puts what its rules say.
pub fn table_tells()
    ensures { TableTells }
{}

/// A law: the table of a journal with one entry more is the next of the table before.
pub fn table_grows()
    ensures { TableGrows }
{}
