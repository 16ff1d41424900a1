//! What lends the value through a `&mut`.
ghost use Rattle.std.specs.Prelude.{◌≡◌};
ghost use types.Logic.{sem};
ghost use denote.Follow.{follows};
ghost use Rattle.lock_place.specs.Held.{place};
ghost use Rattle.access_vault.specs.contracts.vault.Grip.{the_row};
ghost use Rattle.access_vault.specs.contracts.vault.Vault.{the_row as vault_row};
ghost use Rattle.access_vault.specs.Lent.{grip_with_value, vault_with};

use crate::vault::{Grip, Renewal, Vault};

impl<T> Grip<T> {
    /// The value, to write.
    pub fn get_mut<'a>(&'a mut self, vault: &'a Vault<T>) -> &'a mut T
        requires { self.old.vault_id ≡ vault.now.vault_id }
        ensures* writes_back { sem 𝓛 (follows (the_row T.row) T.row self.entry.ghost_name result.ghost_name (grip_with_value self.old)) }
        ensures value { result.now ≡ self.old.value }
    {
        unsafe { &mut *vault.at }
    }
}

impl<T> Vault<T> {
    /// The value, to write, whatever was lent: another age begins.
    pub fn get_mut<'a>(&'a mut self, renewal: Renewal<T>) -> &'a mut T
        requires { (renewal.vault_id.table ≡ self.old.vault_id.table) × (renewal.vault_id.turn ≡ self.old.vault_id.turn) × (self.old.at ≡ place renewal.vault_id.room) }
        ensures* { sem 𝓛 (follows (vault_row T.row) T.row self.entry.ghost_name result.ghost_name (vault_with self.old renewal.vault_id)) }
    {
        let Renewal { marker: _ } = renewal;
        unsafe { &mut *self.at }
    }
}
