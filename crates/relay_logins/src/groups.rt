//! Groups of applications that share connections: whose login is equal to a group's may join it, and by that
//! login its connections log in.
ghost use Rattle.std.specs.Prelude.{◌≡◌, ◌<◌, ◌≤◌, ◌*◌, ℕ, List, [], IfOk, IfSome, IfNone, Some, None, IsSome, false, true, option_copied};
ghost use Rattle.std.specs.Prelude.{IsTrue};
ghost use Rattle.std.specs.Borrow.{sem};
ghost use Rattle.std.specs.Option.{option_copied_mut};
ghost use Rattle.slab.specs.Slab.{entries};
ghost use Rattle.relay_logins.specs.Groups.{Admits, HasNumber, inner_in, is_joined_in, login_of};
ghost use Rattle.relay_logins.specs.Keys.{OthersStay, known};

use crate::dial::{Dial, Way};
use crate::login7::{SharedLogin, are_equal};
use crate::table::{Entry, Table, number_of};
use std::alloc::{AllocError, Global};

/// A group, and what else is known of it.
#[derive(Drop)]
pub struct Group<T> {
    /// The LOGIN7 of its connections.
    login: Vec<u8>,
    /// Whether others whose logins are equal may join.
    is_joined: bool,
    pub inner: T,
}

/// All groups, each by a key that is never used again.
#[derive(Drop)]
pub struct Groups<T> {
    groups: Table<Group<T>>,
}

impl<T: Drop> Groups<T> {
    ghost use Rattle.relay_logins.specs.Lends.{lends_if_inner, lends_inner};

    pub fn new(alloc: Global) -> Groups<T>
        ensures { (key : ℕ) → known result.groups.slab key ≡ None }
    {
        Groups {
            groups: Table::new(alloc),
        }
    }

    /// A new group, whose connections log in by this login, and which those with an equal one may join. None
    /// where there is no room.
    pub fn begin(&mut self, login: SharedLogin, inner: T) -> Option<usize>
        ensures logs_in { IfSome result (λ key.
            login_of self.new.groups.slab key ≡ Some login.message.items) }
        ensures fresh { IfSome result (λ key. 16384 * self.old.groups.given ≤ key) }
        ensures others { IfSome result (λ key.
            OthersStay key self.old.groups.slab self.new.groups.slab) }
        ensures inner { IfSome result (λ key.
            inner_in (known self.new.groups.slab key) ≡ Some inner) }
        ensures was { IfSome result (λ key. known self.old.groups.slab key ≡ None) }
        ensures given { IfSome result (λ key. key < 16384 * self.new.groups.given) }
        ensures grows { self.old.groups.given ≤ self.new.groups.given }
        ensures none { IfNone result ((key : ℕ)
            → known self.new.groups.slab key ≡ known self.old.groups.slab key) }
        ensures joined { IfSome result (λ key.
            is_joined_in (known self.new.groups.slab key) ≡ true) }
    {
        self.groups.insert(Group {
            login: login.message,
            is_joined: true,
            inner,
        })
    }

    /// A new group of one application alone, whose connection logs in by this login.
    pub fn begin_alone(&mut self, login: Vec<u8>, inner: T) -> Option<usize>
        ensures logs_in { IfSome result (λ key.
            login_of self.new.groups.slab key ≡ Some login.items) }
        ensures joined { IfSome result (λ key. (other : List ℕ)
            → Admits (known self.new.groups.slab key) other → ⊥) }
        ensures fresh { IfSome result (λ key. 16384 * self.old.groups.given ≤ key) }
        ensures others { IfSome result (λ key.
            OthersStay key self.old.groups.slab self.new.groups.slab) }
        ensures inner { IfSome result (λ key.
            inner_in (known self.new.groups.slab key) ≡ Some inner) }
        ensures was { IfSome result (λ key. known self.old.groups.slab key ≡ None) }
        ensures given { IfSome result (λ key. key < 16384 * self.new.groups.given) }
        ensures grows { self.old.groups.given ≤ self.new.groups.given }
        ensures none { IfNone result ((key : ℕ)
            → known self.new.groups.slab key ≡ known self.old.groups.slab key) }
    {
        self.groups.insert(Group {
            login,
            is_joined: false,
            inner,
        })
    }

    /// The group that an application with this login joins: its own login is equal.
    pub fn join(&self, login: &SharedLogin) -> Option<usize>
        ensures may { IfSome result (λ key.
            Admits (known self.now.groups.slab key) login.now.message.items) }
        ensures none { IfNone result ((key : ℕ)
            → Admits (known self.now.groups.slab key) login.now.message.items → ⊥) }
    {
        for (_, entry) in self.groups.iter() {
            if self.admits(entry.key, login) {
                return Some(entry.key);
            }
        }
        None
    }

    /// Whether an application with this login may join a group.
    fn admits(&self, key: usize, login: &SharedLogin) -> bool
        ensures may { IsTrue result
            → Admits (known self.now.groups.slab key) login.now.message.items }
        ensures all { Admits (known self.now.groups.slab key) login.now.message.items
            → IsTrue result }
    {
        match self.groups.get(key) {
            Some(group) => group.is_joined && are_equal(&group.login, &login.message),
            None => false,
        }
    }

    /// A connection of a group begins its login, by the group's own. Its first message is appended to `out`.
    /// None where there is no such group.
    pub fn dial(
        &self,
        alloc: Global,
        key: usize,
        way: Way,
        out: &mut Vec<u8>,
    ) -> Result<Option<Dial>, AllocError>
        ensures by { IfOk result (λ made. IfSome made
            (λ dial. login_of self.now.groups.slab key ≡ Some dial.message.items)) }
    {
        match self.login_of(key) {
            Some(login) => Dial::new(alloc, login, way, out),
            None => Ok(None),
        }
    }

    /// The LOGIN7 by which the connections of a group log in.
    fn login_of(&self, key: usize) -> Option<&[u8]>
        ensures { option_copied result ≡ login_of self.now.groups.slab key }
    {
        match self.groups.get(key) {
            Some(group) => Some(group.login.as_slice()),
            None => None,
        }
    }

    /// Nobody joins a group any more.
    pub fn close(&mut self, key: usize)
        ensures joined { is_joined_in (known self.new.groups.slab key) ≡ false }
        ensures nobody { (login : List ℕ) → Admits (known self.new.groups.slab key) login → ⊥ }
        ensures logs_in { login_of self.new.groups.slab key
            ≡ login_of self.old.groups.slab key }
        ensures inner { inner_in (known self.new.groups.slab key)
            ≡ inner_in (known self.old.groups.slab key) }
        ensures others { OthersStay key self.old.groups.slab self.new.groups.slab }
        ensures given { self.new.groups.given ≡ self.old.groups.given }
    {
        if let Some(group) = self.groups.get_mut(key) {
            group.is_joined = false;
        }
    }

    /// What a group logged in by is forgotten: nobody logs in by it again, or joins.
    pub fn forget_login(&mut self, key: usize)
        ensures nobody { (login : List ℕ) → Admits (known self.new.groups.slab key) login → ⊥ }
        ensures gone { IfSome (login_of self.new.groups.slab key) (λ login. login ≡ []) }
        ensures inner { inner_in (known self.new.groups.slab key)
            ≡ inner_in (known self.old.groups.slab key) }
        ensures others { OthersStay key self.old.groups.slab self.new.groups.slab }
        ensures given { self.new.groups.given ≡ self.old.groups.given }
    {
        self.close(key);
        if let Some(group) = self.groups.get_mut(key) {
            group.login.clear();
        }
    }

    /// What is known of a group.
    pub fn get(&self, key: usize) -> Option<&T>
        ensures { option_copied result ≡ inner_in (known self.now.groups.slab key) }
    {
        match self.groups.get(key) {
            Some(group) => Some(&group.inner),
            None => None,
        }
    }

    /// The same for writing: its login stays, and who may join.
    pub fn get_mut(&mut self, key: usize) -> Option<&mut T>
        ensures* writes_back { sem 𝓛 (lends_if_inner T.row self.entry key result) }
        ensures value { option_copied_mut result ≡ inner_in (known self.old.groups.slab key) }
    {
        if !self.groups.is_known(key) {
            return None;
        }
        Some(self.inner_mut(key))
    }

    /// What is known of a group that there is, for writing.
    fn inner_mut(&mut self, key: usize) -> &mut T
        requires { IsSome (known self.old.groups.slab key) }
        ensures* writes_back { sem 𝓛 (lends_inner T.row self.entry key result) }
        ensures value { Some result.now ≡ inner_in (known self.old.groups.slab key) }
    {
        let group = self.groups.at_mut(key);
        &mut group.inner
    }

    /// A group is one no longer. Its key is no group's from then on.
    pub fn try_remove(&mut self, key: usize) -> Option<T>
        ensures value { result ≡ inner_in (known self.old.groups.slab key) }
        ensures gone { known self.new.groups.slab key ≡ None }
        ensures others { OthersStay key self.old.groups.slab self.new.groups.slab }
        ensures given { self.new.groups.given ≡ self.old.groups.given }
    {
        let group = self.groups.try_remove(key)?;
        Some(group.inner)
    }

    /// Whether others may join a group.
    pub fn is_joined(&self, key: usize) -> bool
        ensures { result ≡ is_joined_in (known self.now.groups.slab key) }
    {
        match self.groups.get(key) {
            Some(group) => group.is_joined,
            None => false,
        }
    }

    /// The key of the group of this number.
    pub fn key_of(&self, number: u64) -> Option<usize>
        ensures is { IfSome result (λ key. HasNumber self.now.groups.slab number key) }
        ensures none { IfNone result ((key : ℕ)
            → HasNumber self.now.groups.slab number key → ⊥) }
    {
        for (_, entry) in self.groups.iter() {
            if self.has_number(entry.key, number) {
                return Some(entry.key);
            }
        }
        None
    }

    /// Whether a key is a group's of this number.
    fn has_number(&self, key: usize, number: u64) -> bool
        ensures is { IsTrue result → HasNumber self.now.groups.slab number key }
        ensures all { HasNumber self.now.groups.slab number key → IsTrue result }
    {
        number_of(key) == number && self.groups.is_known(key)
    }

    /// All groups.
    pub fn iter(&self) -> slab::Iter<'_, Entry<Group<T>>>
        ensures { result ≡ entries self.now.groups.slab }
    {
        self.groups.iter()
    }
}
