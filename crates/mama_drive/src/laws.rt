ghost use Rattle.mama_drive.specs.Lawful.{LawfulRunsServe};

use mama_dispatch::lawful_may_come;

/// A law: in a run in which clients put what they may and each lane keeps what was put on it, what waits first for a queue
/// may come.
pub(crate) fn lawful_runs_serve()
    ensures { LawfulRunsServe }
{
    lawful_may_come();
    mama_laws_lawful::lawful_clients_get_lawful_streams();
    mama_laws_timers::lawful_clients_get_lawful_streams();
}
