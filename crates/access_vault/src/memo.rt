//! What whoever has the writer lock knows of the value.
ghost use Rattle.std.specs.Prelude.{◌≡◌};
ghost use Rattle.access_vault.specs.Kept.{VaultId, vault_id_coded, memo_owns};

use crate::vault::{Glance, Vault};
use lock_place::{Hold, Room};
use std::marker::{Model, PhantomData};

/// What whoever has the writer lock knows of the value. The vault gives it for the right to the writer lock's room, of which there is one, and nobody
/// writes without it. So it says which value there is while its owner's right changes, and nothing is lent against its seat.
///
/// It has no bytes, and no `Drop`: it is given back for that right.
pub struct Memo<T> {
    pub(crate) marker: PhantomData<T>,
    pub ghost vault_id: { VaultId } by { vault_id_coded },
    pub ghost value: { T },
}

impl<T> Model for Memo<T> {
    ghost also_owns = { λ m. memo_owns T.row m.vault_id m.value };
}

impl<T> Vault<T> {
    /// Gives the memo for the right to the writer lock's room: the hold is of no room of any use from now on.
    pub fn memo(&self, hold: &mut Hold<()>, turn: &Room<()>) -> Memo<T>
        requires { (turn.now.room_id ≡ self.now.vault_id.turn) × (hold.old.room_id ≡ turn.now.room_id) }
        ensures { result.vault_id ≡ self.now.vault_id }
    {
        let _ = hold;
        let _ = turn;
        Memo {
            marker: PhantomData,
        }
    }
}

impl<T> Memo<T> {
    /// Gives the memo back: the hold, which was of no use meanwhile, is the right to the writer lock's room again.
    pub fn give_back(self, vault: &Vault<T>, hold: &mut Hold<()>, turn: &Room<()>)
        requires { (self.vault_id ≡ vault.now.vault_id) × (turn.now.room_id ≡ vault.now.vault_id.turn) }
        ensures { hold.new.room_id ≡ turn.now.room_id }
    {
        let _ = hold;
        let _ = turn;
        let _ = vault;
        let Memo { marker: _ } = self;
    }

    /// The memo's value is the one that a right to read shows. Nothing is done: both are as they were.
    pub fn agrees(&mut self, glance: &mut Glance<T>, vault: &Vault<T>)
        requires { (self.old.vault_id ≡ vault.now.vault_id) × (glance.old.vault_id ≡ vault.now.vault_id) }
        ensures same { (self.new ≡ self.old) × (glance.new ≡ glance.old) }
        ensures value { self.new.value ≡ glance.new.value }
    {
        let _ = glance;
        let _ = vault;
    }
}

unsafe impl<T> Send for Memo<T> {}
