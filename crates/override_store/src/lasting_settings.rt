//! The store that a launcher's settings last in: it goes on after its disk failed.

ghost use Rattle.std.specs.Prelude.{◌≡◌, ◌≢◌, ◌⊎◌, ◌<◌, ◌≤◌, ◌∷◌, ◌↔◌, Err, IfErr, IfOk, IsSomeAnd, IsTrue, None, Option, Some, [], reverse, true, false};
ghost use Rattle.std.specs.Vec.{vec_capacity, vec_len};
ghost use Rattle.sqlite.specs.Held.{state};
ghost use Rattle.sqlite.specs.State.{HasCleanDisk};
ghost use Rattle.sqlite.specs.Tree.{Trees};
ghost use Rattle.sqlite.specs.View.{IsClean};
ghost use Rattle.history_model.specs.declared.TheConstants.{MAX_WALL};
ghost use Rattle.history_model.specs.Labels.{is_label};
ghost use Rattle.override_store.specs.OverrideStores.{AreFit, HoldsAs};
ghost use Rattle.override_store.specs.StoreTables.{both_schema};
ghost use Rattle.override_store.specs.Places.{IsAskedMore, IsKnownOr, IsOver, Keeps, LeadsTo, over_connection, over_stores};
ghost use Rattle.override_store.specs.KnownSettings.{AtHand, HasMade, HoldsKnown, HoldsLast, HoldsTrees, IsOneTooMany, StampsLast, TellAlike, known_as};

use crate::known::{Known, is_one_too_many, put, rising};
use crate::place::{StorePlace, StoreStatus, Telling};
use crate::renewal::{leave, open_all, renewed, store_schema};
use crate::stored_settings::fault_of;
use crate::{OverrideStore, StoreFault};
use history_model::{Setting, Text};
use outside::{self, SettingStore};
use sqlite::{Alter, Connection};
use sqlite_schema::schema::Schema;
use sqlite_trees::store::Store;
use std::alloc::Global;

/// Why a setting was not kept.
#[derive(Clone, Copy)]
pub enum NotKept {
    /// Memory was refused.
    NoMemory,
    /// The label has no setting, and `MOST_LABELS` have one.
    TooMany,
    /// The store refused it, or could not be opened again.
    Refused,
}

/// The store at its place, with the settings that it must hold. A refused setting shuts it. The next setting opens it again, and before
/// that setting is made, what its database then has otherwise is written back. When it is dropped, it closes its database whole.
pub struct LastingSettings<S: Alter, P: StorePlace<Connection<S>, S>> {
    alloc: Global,
    pub place: P,
    /// The store, if it is not shut.
    pub store: Option<OverrideStore<S>>,
    /// One that a refusal shut. It keeps the place from others.
    pub shut: Option<OverrideStore<S>>,
    pub known: Vec<Known>,
    /// The schema of a store. A store that is opened again is compared with it.
    pub pattern: Schema,
    /// Whether it has reported that there are too many labels.
    is_full: bool,
}

impl<S: Alter + Drop, P: StorePlace<Connection<S>, S> + Drop> Drop for LastingSettings<S, P> {
    fn drop(self) {
        let LastingSettings {
            alloc,
            place,
            store,
            shut,
            known,
            pattern,
            is_full: _,
        } = self;
        let mut place = place;
        leave_one(&mut place, store);
        leave_one(&mut place, shut);
        settle(alloc, &mut place, &pattern, known.as_slice());
        drop(pattern);
        drop(known);
        drop(place);
    }
}

// Closes the store, if there is one.
fn leave_one<S: Alter + Drop, P: StorePlace<Connection<S>, S>>(
    place: &mut P,
    store: Option<OverrideStore<S>>,
)
    ensures asked { P.asked place.new ≡ P.asked place.old }
    ensures found { IsOver S.Store P.finds P.over P.after P.is_open → Keeps (over_stores S.Store (P.finds place.old) None store) (P.finds place.new) }
{
    match store {
        Some(store) => leave(place, store),
        None => {}
    }
}

// Opens the store again, to see and mend what others did to its files meanwhile, and closes it.
fn settle<S: Alter + Drop, P: StorePlace<Connection<S>, S>>(
    alloc: Global,
    place: &mut P,
    pattern: &Schema,
    known: &[Known],
) {
    place.tell(StoreStatus::Anew);
    if let Ok((store, is_mended)) = renewed(alloc, place, pattern, known, Telling::AllButBusy) {
        if is_mended {
            place.tell(StoreStatus::Mended);
        }
        place.close(store.close_on());
    }
}

/// The store on a connection to the database at the place, and the settings that it holds, by rising bytes of their labels. Refused as
/// `opened` is.
pub fn lasting<S: Alter + Drop, P: StorePlace<Connection<S>, S> + Drop>(
    alloc: Global,
    place: P,
    conn: Connection<S>,
) -> Result<(LastingSettings<S, P>, Vec<Setting>), (StoreFault, S)>
    ensures holds { IfOk result (λ r. AreFit (state S.Store conn).committed.trees →
        HoldsLast S.Store r.0.pattern r.0.store r.0.known.items (reverse r.1.items)) }
    ensures stamped { IfOk result (λ r. AreFit (state S.Store conn).committed.trees →
        StampsLast S.Store r.0.pattern r.0.store r.0.known.items []) }
    ensures left { IfErr result (λ e. IsClean (S.Store.view e.1) →
        AreFit (state S.Store conn).committed.trees → (db : Trees) → S.Store.recovers e.1 db →
        (state S.Store conn).may_leave db ⊎ HoldsAs (state S.Store conn).committed.trees db) }
{
    let pattern = match store_schema(alloc) {
        Ok(pattern) => pattern,
        Err(fault) => {
            drop(place);
            return Err((fault, conn.into_store()));
        }
    };
    let (store, known) = match open_all(alloc, conn) {
        Ok(both) => both,
        Err(refused) => {
            drop(place);
            drop(pattern);
            return Err(refused);
        }
    };
    match rising(alloc, known.as_slice()) {
        Ok(settings) => Ok((
            LastingSettings {
                alloc,
                place,
                store: Some(store),
                shut: None,
                known,
                pattern,
                is_full: false,
            },
            settings,
        )),
        Err(fault) => {
            drop(place);
            drop(pattern);
            drop(known);
            Err((fault, store.close_on().into_store()))
        }
    }
}

impl<S: Alter + Drop, P: StorePlace<Connection<S>, S> + Drop> LastingSettings<S, P> {
    // The store, taken out. It is opened again if it is shut.
    fn at_hand(&mut self) -> Result<OverrideStore<S>, StoreFault>
        ensures pattern { self.new.pattern ≡ self.old.pattern }
        ensures known { self.new.known ≡ self.old.known }
        ensures taken { self.new.store ≡ None }
        ensures holds { self.old.pattern ≡ both_schema →
            AtHand S.Store self.old.store self.old.known.items →
            IfOk result (λ store. HoldsKnown (state S.Store store) self.old.known.items) }
        ensures asked { self.old.store ≡ None →
            IsAskedMore (P.asked self.old.place) (P.asked self.new.place) }
        ensures crash { IsOver S.Store P.finds P.over P.after P.is_open → self.old.pattern ≡ both_schema → IfOk result (λ store. LeadsTo
            (over_stores S.Store (P.finds self.old.place) self.old.store self.old.shut)
            (over_connection S.Store (P.finds self.new.place) store)
            (λ db. HoldsTrees db self.old.known.items)) }
        ensures left { IsOver S.Store P.finds P.over P.after P.is_open → self.old.pattern ≡ both_schema → IfErr result (λ _. LeadsTo
            (over_stores S.Store (P.finds self.old.place) self.old.store self.old.shut)
            (over_stores S.Store (P.finds self.new.place) self.new.store self.new.shut)
            (λ db. HoldsTrees db self.old.known.items)) }
    {
        match self.store.take() {
            Some(store) => Ok(store),
            None => self.open_anew(),
        }
    }

    fn open_anew(&mut self) -> Result<OverrideStore<S>, StoreFault>
        ensures pattern { self.new.pattern ≡ self.old.pattern }
        ensures known { self.new.known ≡ self.old.known }
        ensures taken { self.new.store ≡ self.old.store }
        ensures holds { self.old.pattern ≡ both_schema →
            IfOk result (λ store. HoldsKnown (state S.Store store) self.old.known.items) }
        ensures asked { IsAskedMore (P.asked self.old.place) (P.asked self.new.place) }
        ensures shut { self.new.shut ≡ None }
        ensures crash { IsOver S.Store P.finds P.over P.after P.is_open → self.old.pattern ≡ both_schema → IfOk result (λ store. LeadsTo
            (over_stores S.Store (P.finds self.old.place) None self.old.shut)
            (over_connection S.Store (P.finds self.new.place) store)
            (λ db. HoldsTrees db self.old.known.items)) }
        ensures left { IsOver S.Store P.finds P.over P.after P.is_open → self.old.pattern ≡ both_schema → IfErr result (λ _. LeadsTo
            (over_stores S.Store (P.finds self.old.place) None self.old.shut)
            (P.finds self.new.place) (λ db. HoldsTrees db self.old.known.items)) }
    {
        leave_one(&mut self.place, self.shut.take());
        let telling = Telling::New;
        match renewed(
            self.alloc,
            &mut self.place,
            &self.pattern,
            self.known.as_slice(),
            telling,
        ) {
            Ok((store, _)) => Ok(store),
            Err(fault) => Err(fault),
        }
    }

    // Shuts the store, which refused a setting. It reports that, unless it has reported the reason since the store last took one.
    fn shut(&mut self, store: OverrideStore<S>, fault: StoreFault)
        ensures pattern { self.new.pattern ≡ self.old.pattern }
        ensures known { self.new.known ≡ self.old.known }
        ensures store { self.new.store ≡ self.old.store }
        ensures place { self.new.place ≡ self.old.place }
        ensures held { self.new.shut ≡ Some store }
    {
        self.place.tell(StoreStatus::Refused(fault));
        self.shut = Some(store);
    }

    /// Makes the setting in the store, which it opens again first if it is shut. True: the setting lasts. What is known stays as it was,
    /// so the caller must note it. False: the store is shut, and the setting may be in its database.
    fn write(&mut self, label: &str, disabled: bool, changed: u64) -> bool
        requires label { IsTrue (is_label label.now) }
        requires second { changed ≤ MAX_WALL }
        ensures pattern { self.new.pattern ≡ self.old.pattern }
        ensures known { self.new.known ≡ self.old.known }
        ensures refused { result ≡ false → self.new.store ≡ None }
        ensures made { IsTrue result → self.old.pattern ≡ both_schema → AtHand S.Store self.old.store self.old.known.items →
            IsSomeAnd self.new.store (λ store. (HasCleanDisk (state S.Store store) →
            HasMade (state S.Store store) label.now disabled changed self.old.known.items)) }
        ensures asked { self.old.store ≡ None →
            IsAskedMore (P.asked self.old.place) (P.asked self.new.place) }
        ensures crash { IsOver S.Store P.finds P.over P.after P.is_open → self.old.pattern ≡ both_schema → AtHand S.Store self.old.store self.old.known.items → LeadsTo
            (over_stores S.Store (P.finds self.old.place) self.old.store self.old.shut)
            (over_stores S.Store (P.finds self.new.place) self.new.store self.new.shut)
            (λ db. IsKnownOr db self.old.known.items label.now disabled changed) }
    {
        let mut store = match self.at_hand() {
            Ok(store) => store,
            Err(_) => return false,
        };
        match store.set(label, disabled, changed) {
            Ok(()) => {
                self.store = Some(store);
                self.place.tell(StoreStatus::Anew);
                true
            }
            Err(fault) => {
                self.shut(store, fault);
                false
            }
        }
    }

    // Whether the label may have a setting. There is room for one more then. It reports once that there are too many labels.
    fn make_room(&mut self, label: &str) -> Result<(), NotKept>
        ensures pattern { self.new.pattern ≡ self.old.pattern }
        ensures store { self.new.store ≡ self.old.store }
        ensures known { self.new.known.items ≡ self.old.known.items }
        ensures room { IfOk result (λ _. vec_len self.new.known < vec_capacity self.new.known) }
        ensures full { result ≡ Err NotKept.TooMany ↔ IsOneTooMany self.old.known.items label.now }
        ensures place { self.new.place ≡ self.old.place }
        ensures shut { self.new.shut ≡ self.old.shut }
        ensures memory { result ≢ Err NotKept.Refused }
    {
        if is_one_too_many(self.known.as_slice(), label) {
            if !self.is_full {
                self.place.tell(StoreStatus::TooMany);
            }
            self.is_full = true;
            return Err(NotKept::TooMany);
        }
        match self.known.reserve(1) {
            Ok(()) => Ok(()),
            Err(_) => Err(NotKept::NoMemory),
        }
    }

    /// This is `set` of `SettingStore`. Once it returns Ok the setting lasts, and the store has all that was set, whatever was refused
    /// before. Err: the store need not hold the setting, though the database may have it until the store is opened again. A label is one
    /// too many exactly if it has no setting and `MOST_LABELS` have one.
    ///
    /// At each exit a stop leaves what one could leave before, or all that was set, or that with this setting. This holds over all openings
    /// of the store, where each finds what the one before it left (`Finds`).
    pub fn keep(&mut self, label: &str, disabled: bool, changed: u64) -> Result<(), NotKept>
        requires label { IsTrue (is_label label.now) }
        requires second { changed ≤ MAX_WALL }
        ensures pattern { self.new.pattern ≡ self.old.pattern }
        ensures full { result ≡ Err NotKept.TooMany ↔ IsOneTooMany self.old.known.items label.now }
        ensures refused { IfErr result (λ _.
            (self.new.known.items ≡ self.old.known.items) × (self.new.store ≡ None ⊎
            self.new.store ≡ self.old.store)) }
        ensures told { IfOk result (λ _.
            TellAlike self.new.known.items (known_as label.now disabled changed ∷ self.old.known.items)) }
        ensures made { IfOk result (λ _. self.old.pattern ≡ both_schema → AtHand S.Store self.old.store self.old.known.items →
            IsSomeAnd self.new.store (λ store. (HasCleanDisk (state S.Store store) →
            HasMade (state S.Store store) label.now disabled changed self.old.known.items))) }
        ensures asked { self.old.store ≡ None → result ≡ Err NotKept.Refused →
            IsAskedMore (P.asked self.old.place) (P.asked self.new.place) }
        ensures crash { IsOver S.Store P.finds P.over P.after P.is_open → self.old.pattern ≡ both_schema → AtHand S.Store self.old.store self.old.known.items → LeadsTo
            (over_stores S.Store (P.finds self.old.place) self.old.store self.old.shut)
            (over_stores S.Store (P.finds self.new.place) self.new.store self.new.shut)
            (λ db. IsKnownOr db self.old.known.items label.now disabled changed) }
    {
        match self.make_room(label) {
            Ok(()) => {}
            Err(why) => return Err(why),
        }
        let text = match Text::copy_of(self.alloc, label) {
            Ok(text) => text,
            Err(_) => return Err(NotKept::NoMemory),
        };
        if self.write(label, disabled, changed) {
            let setting = Setting {
                label: text,
                disabled,
            };
            put(&mut self.known, Known { setting, changed });
            Ok(())
        } else {
            drop(text);
            Err(NotKept::Refused)
        }
    }
}

impl<S: Alter + Drop, P: StorePlace<Connection<S>, S> + Drop> SettingStore
    for LastingSettings<S, P> {
    ghost holds = { λ s settings. HoldsLast S.Store s.pattern s.store s.known.items settings };

    ghost stamped = { λ s stamps. StampsLast S.Store s.pattern s.store s.known.items stamps };

    ghost told = { λ s. None };

    ghost may_give = { λ s answer. Unit {0} };

    fn set(&mut self, label: &str, disabled: bool, changed: u64) -> bool {
        match self.keep(label, disabled, changed) {
            Ok(()) => true,
            Err(_) => false,
        }
    }

    fn all(&mut self, alloc: Global) -> Result<Vec<Setting>, outside::StoreFault> {
        match rising(alloc, self.known.as_slice()) {
            Ok(all) => Ok(all),
            Err(fault) => Err(fault_of(fault)),
        }
    }
}
