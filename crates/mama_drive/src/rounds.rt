ghost use Rattle.std.specs.Prelude.{◌≡◌, List, ℕ, Option, true, false};
ghost use Rattle.mama_drive.specs.Heard.{HearsRounds};
ghost use Rattle.mama_drive.specs.Scene.{Plays, IsPlayed, world_in};

use crate::run::Run;

impl<'a> Run<'a> {
    /// Whether every client and every publisher has made all its steps, and nothing is held.
    pub(crate) fn is_played(&self) -> bool
        ensures { result ≡ true → IsPlayed self.now }
    {
        self.held.is_empty() && self.system.is_played()
    }

    /// Makes at once all rounds in which every client and every publisher pauses, if nothing else happens in them. Says
    /// whether there were any.
    pub(crate) fn rests(&mut self) -> bool
        ensures rounds { result ≡ true → Plays self.old self.new }
        ensures clock { result ≡ true → (o : Option (List ℕ)) → HearsRounds o o self.old.clients self.new.clients }
        ensures journals { world_in self.new ≡ world_in self.old }
        ensures same { result ≡ false → self.new ≡ self.old }
    {
        if !self.held.is_empty() {
            return false;
        }
        let rounds = self.system.pause();
        if rounds == 0 {
            return false;
        }
        if !self.system.can_rest(rounds) {
            return false;
        }
        self.system.rest(rounds);
        true
    }
}
