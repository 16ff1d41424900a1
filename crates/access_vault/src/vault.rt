//! The vault, and what it lends.
ghost use Rattle.std.specs.Prelude.{◌≡◌, ℕ, true, [], ◌∷◌, length, Option};
ghost use Rattle.std.specs.Coded.{coded_option};
ghost use Rattle.words_access.specs.declared.view.View.{View as SeatView};
ghost use Rattle.words_access.specs.contracts.view.View as view;
ghost use Rattle.lock_place.specs.Held.{place, hold_shares};
ghost use Rattle.access_vault.specs.Kept.{VaultId, vault_id_coded, vault_owns, vault_shares, renewal_owns, glance_owns, glance_shares, grip_owns};

use crate::memo::Memo;
use access_core::{AccessRule, Lists, View};
use atomic_table::{Badge, Shared};
use lock_place::{Room, Strip};
use std::marker::{Model, PhantomData};

/// Where the value lies, with the account of who reads and writes it.
pub struct Vault<T> {
    pub(crate) at: *mut T,
    pub ghost vault_id: { VaultId } by { vault_id_coded },
    // What was written through the last `&mut`.
    pub ghost value: { Option T } by { coded_option T.code },
}

impl<T> Model for Vault<T> {
    ghost also_owns = { λ v. vault_owns T.row v.vault_id v.at };

    ghost also_shares = { λ v _ κ. vault_shares T.row v.vault_id v.at κ };
}

/// The right to read, for which a seat is in pledge.
pub struct Glance<T> {
    pub(crate) marker: PhantomData<T>,
    pub ghost vault_id: { VaultId } by { vault_id_coded },
    pub ghost id: { ℕ },
    pub ghost view: { SeatView } by { view.the_row.coded },
    pub ghost value: { T },
}

impl<T> Model for Glance<T> {
    ghost also_owns = { λ g. glance_owns T.row g.vault_id g.id g.view g.value };

    ghost also_shares = { λ g _ κ. glance_shares T.row g.vault_id g.value κ };
}

/// The right to write, for which a seat is in pledge.
pub struct Grip<T> {
    pub(crate) marker: PhantomData<T>,
    pub ghost vault_id: { VaultId } by { vault_id_coded },
    pub ghost id: { ℕ },
    pub ghost view: { SeatView } by { view.the_row.coded },
    pub ghost value: { T },
}

impl<T> Model for Grip<T> {
    ghost also_owns = { λ g. grip_owns T.row g.vault_id g.id g.view g.value };

    ghost also_shares = { λ g _ κ. hold_shares T.row g.vault_id.room g.value κ };
}

/// The marks of a vault's next age: a `&mut` to the vault begins it.
pub struct Renewal<T> {
    pub(crate) marker: PhantomData<T>,
    pub ghost vault_id: { VaultId } by { vault_id_coded },
}

impl<T> Model for Renewal<T> {
    ghost also_owns = { λ r. renewal_owns T.row r.vault_id };
}

impl<T> Vault<T> {
    /// The marks of another age.
    pub fn next_age(&self) -> Renewal<T>
        ensures { (result.vault_id.table ≡ self.now.vault_id.table) × (result.vault_id.turn ≡ self.now.vault_id.turn) × (self.now.at ≡ place result.vault_id.room) }
    {
        Renewal {
            marker: PhantomData,
        }
    }
}

impl<T> Vault<T> {
    /// A vault of a value in place, for the seats of this table, and for the right to this room of the writer lock.
    pub fn deal(
        strip: Strip<T>,
        table: &Shared<Lists, View, (), AccessRule>,
        turn: &Room<()>,
    ) -> Vault<T>
        requires { length strip.items ≡ 1 }
        ensures { (result.at ≡ strip.ptr) × (result.vault_id.table ≡ table.now.table_id) × (result.vault_id.turn ≡ turn.now.room_id) }
    {
        let _ = turn;
        let _ = table;
        let Strip { ptr: at } = strip;
        Vault { at }
    }

    /// The value in place, whatever was lent.
    pub fn gather(self) -> Strip<T>
        ensures { (result.ptr ≡ self.at) × (length result.items ≡ 1) }
    {
        let Vault { at } = self;
        Strip { ptr: at }
    }

    /// Lends the value for writing, against a seat whose view says that it writes: the badge is blank from now on. The value is that of the memo.
    pub fn write(
        &self,
        table: &Shared<Lists, View, (), AccessRule>,
        badge: &mut Badge<View>,
        memo: &mut Memo<T>,
    ) -> Grip<T>
        requires table { (table.now.table_id ≡ self.now.vault_id.table) × (badge.old.table_id ≡ table.now.table_id) }
        requires writes { (v : SeatView) × (badge.old.views ≡ v ∷ []) × (v.writes ≡ true) }
        requires memo { memo.old.vault_id ≡ self.now.vault_id }
        ensures lends { (result.vault_id ≡ self.now.vault_id) × (result.id ≡ badge.old.id) × (badge.old.views ≡ result.view ∷ []) × (badge.new.views ≡ []) }
        ensures value { (result.value ≡ memo.old.value) × (memo.new ≡ memo.old) }
    {
        let _ = table;
        let _ = badge;
        let _ = memo;
        Grip {
            marker: PhantomData,
        }
    }

    /// Lends the value for reading, against a seat whose view says that it reads: the badge is blank from now on.
    pub fn read(
        &self,
        table: &Shared<Lists, View, (), AccessRule>,
        badge: &mut Badge<View>,
    ) -> Glance<T>
        requires table { (table.now.table_id ≡ self.now.vault_id.table) × (badge.old.table_id ≡ table.now.table_id) }
        requires reads { (v : SeatView) × (badge.old.views ≡ v ∷ []) × (v.reads ≡ true) }
        ensures { (result.vault_id ≡ self.now.vault_id) × (result.id ≡ badge.old.id) × (badge.old.views ≡ result.view ∷ []) × (badge.new.views ≡ []) }
    {
        let _ = table;
        let _ = badge;
        Glance {
            marker: PhantomData,
        }
    }
}

impl<T> Glance<T> {
    /// The value, to read.
    pub fn get<'a>(&'a self, vault: &'a Vault<T>) -> &'a T
        requires { self.now.vault_id ≡ vault.now.vault_id }
        ensures { result.now ≡ self.now.value }
    {
        unsafe { &*vault.at }
    }

    /// Gives the right back, and has the seat out of pledge: the badge that was blank meanwhile is the seat's again.
    pub fn give_back(self, vault: &Vault<T>, badge: &mut Badge<View>)
        requires { (self.vault_id ≡ vault.now.vault_id) × (badge.old.views ≡ []) }
        ensures { (badge.new.table_id ≡ vault.now.vault_id.table) × (badge.new.id ≡ self.id) × (badge.new.views ≡ self.view ∷ []) }
    {
        let _ = vault;
        let _ = badge;
        let Glance { marker: _ } = self;
    }

    /// Two rights to read of one vault show the same value, since nobody writes while they are lent. Nothing is done: both are as they were.
    pub fn agrees(&mut self, other: &mut Glance<T>, vault: &Vault<T>)
        requires { (self.old.vault_id ≡ vault.now.vault_id) × (other.old.vault_id ≡ vault.now.vault_id) }
        ensures same { (self.new ≡ self.old) × (other.new ≡ other.old) }
        ensures value { self.new.value ≡ other.new.value }
    {
        let _ = other;
        let _ = vault;
    }
}

impl<T> Grip<T> {
    /// The value, to read.
    pub fn get<'a>(&'a self, vault: &'a Vault<T>) -> &'a T
        requires { self.now.vault_id ≡ vault.now.vault_id }
        ensures { result.now ≡ self.now.value }
    {
        unsafe { &*vault.at }
    }

    /// Gives the right back, and has the seat out of pledge: the badge that was blank meanwhile is the seat's again, and the memo is of the value
    /// that is given back.
    pub fn give_back(self, vault: &Vault<T>, badge: &mut Badge<View>, memo: &mut Memo<T>)
        requires { (self.vault_id ≡ vault.now.vault_id) × (badge.old.views ≡ []) × (memo.old.vault_id ≡ vault.now.vault_id) }
        ensures redeems { (badge.new.table_id ≡ vault.now.vault_id.table) × (badge.new.id ≡ self.id) × (badge.new.views ≡ self.view ∷ []) }
        ensures value { (memo.new.vault_id ≡ vault.now.vault_id) × (memo.new.value ≡ self.value) }
    {
        let _ = vault;
        let _ = badge;
        let _ = memo;
        let Grip { marker: _ } = self;
    }
}

unsafe impl<T: Send + Sync> Send for Vault<T> {}

unsafe impl<T: Send + Sync> Sync for Vault<T> {}

unsafe impl<T: Sync> Send for Glance<T> {}

unsafe impl<T: Sync> Sync for Glance<T> {}

unsafe impl<T: Send> Send for Grip<T> {}
