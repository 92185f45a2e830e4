ghost use Rattle.std.specs.Prelude.{◌≡◌, true, false};
ghost use Rattle.up_model.specs.Roles as roles;
ghost use Rattle.up_model.specs.Modified.{modified};
ghost use Rattle.up_model.specs.Concerns.{keeps_roles, keeps_modified};
ghost use Rattle.up_model.specs.Changes.{SetsModified, Departs, SetsDetached};
ghost use Rattle.up_object.specs.Change.{tally_set};
ghost use Rattle.up_object.specs.Roles.{departed};

use crate::changing::Changing;
use crate::object::Object;
use crate::tally::Tally;
use up_model::Birth;

impl Object {
    /// What the object was born with.
    pub fn born(&self) -> Birth
        ensures { result ≡ self.now.birth }
    {
        self.birth
    }

    /// How many users haven't left.
    pub fn users(&self) -> u32
        ensures { result ≡ roles.users self.now.birth self.now.journal }
    {
        self.tally.users
    }

    /// How many pagers haven't left.
    pub fn pagers(&self) -> u32
        ensures { result ≡ roles.pagers self.now.birth self.now.journal }
    {
        self.tally.pagers
    }

    /// Whether nobody waits on the object any more, since it was detached, or all users or all pagers left.
    pub fn detached(&self) -> bool
        ensures { result ≡ roles.detached self.now.birth self.now.journal }
    {
        self.tally.detached || self.tally.users == 0 || self.tally.pagers == 0
    }

    /// Whether the object was changed since its birth, or since the last stats call that resets this.
    pub fn changed(&self) -> bool
        ensures { result ≡ modified self.now.birth self.now.journal }
    {
        self.tally.modified
    }
}

/// One user, or one pager, less.
fn one_less(tally: Tally, user: bool) -> Tally
    ensures { result ≡ departed user tally }
{
    if user {
        let users = tally.users.saturating_sub(1);
        Tally { users, ..tally }
    } else {
        let pagers = tally.pagers.saturating_sub(1);
        Tally { pagers, ..tally }
    }
}

impl Changing {
    /// Sets whether the object was changed.
    pub fn set_changed(&mut self, changed: bool)
        requires first { self.old.done.tally ≡ false }
        requires roles { keeps_roles self.old.entry ≡ true }
        requires sets { SetsModified self.old.birth self.old.entry self.old.journal changed }
        ensures { self.new ≡ tally_set self.old }
    {
        self.tally.modified = changed;
        self.tally_done = true;
    }

    /// Takes one off the users, or off the pagers.
    pub fn leave(&mut self, user: bool)
        requires first { self.old.done.tally ≡ false }
        requires departs { Departs self.old.birth self.old.entry self.old.journal user }
        requires unchanged { keeps_modified self.old.entry ≡ true }
        ensures { self.new ≡ tally_set self.old }
    {
        let tally = one_less(self.tally, user);
        self.tally = tally;
        self.tally_done = true;
    }

    /// Remembers that a detach was accepted.
    pub fn set_detached(&mut self)
        requires first { self.old.done.tally ≡ false }
        requires cuts { SetsDetached self.old.birth self.old.entry self.old.journal }
        requires unchanged { keeps_modified self.old.entry ≡ true }
        ensures { self.new ≡ tally_set self.old }
    {
        self.tally.detached = true;
        self.tally_done = true;
    }
}
