ghost use Rattle.std.specs.Prelude.{◌≡◌, ◌<◌, ◌≤◌, [], ◌∷◌, ◌++◌, length, take, drop, IfSome, nat_eq, slice_set};
ghost use Rattle.std.specs.List.{remove};
ghost use Rattle.directory.specs.Contents.{contents, places, empty_over, stored, vacated};
ghost use Rattle.directory.specs.Found.{first_at, first_with};
ghost use Rattle.directory.specs.Steps.{known, add_answer, add_list, remove_answer, remove_list};
ghost use Rattle.directory.specs.Changes.{added, taken_out, NeverTwoOfAKey, FreedIsErasedAndReused};

use crate::keyed::{Blank, Keyed, fetch, lookup};
use refusal::Refusal;

/// Records with keys of 64 bits in a slice that the caller lends, so that a directory asks for no memory. The first
/// `count` places are in use, and those behind them are free.
#[derive(Drop)]
pub struct Directory<'a, R> {
    records: &'a mut [R],
    count: usize,
}

impl<'a, R> Directory<'a, R> {
    /// The records in use, in the order in which they were added.
    pub fn used(&self) -> &[R]
        ensures { result.now ≡ contents self.now }
    {
        &self.records[..self.count.min(self.records.len())]
    }
}

impl<'a, R: Keyed> Directory<'a, R> {
    /// An empty directory with the slice's places.
    pub fn new(records: &'a mut [R]) -> Directory<'a, R>
        ensures list { contents result ≡ [] }
        ensures size { places result ≡ length records.old }
        ensures whole { result ≡ empty_over records.entry }
        ensures apart { NeverTwoOfAKey R.keyed result }
        ensures freed { FreedIsErasedAndReused R.keyed result }
    {
        Directory { records, count: 0 }
    }

    /// The place of the first record with the key.
    pub fn find(&self, key: u64) -> Option<usize>
        ensures value { result ≡ first_at nat_eq R.keyed (contents self.now) key }
        ensures within { IfSome result (λ i. i < length (contents self.now)) }
    {
        lookup(self.used(), key)
    }

    /// Whether a record has the key.
    pub fn contains(&self, key: u64) -> bool
        ensures { result ≡ known nat_eq R.keyed (contents self.now) key }
    {
        self.find(key).is_some()
    }
}

impl<'a, R: Keyed + Copy> Directory<'a, R> {
    /// The first record with the key.
    pub fn get(&self, key: u64) -> Option<R>
        ensures { result ≡ first_with nat_eq R.keyed (contents self.now) key }
    {
        fetch(self.used(), key)
    }
}

impl<'a, R: Keyed + Drop> Directory<'a, R> {
    /// Adds a record at the end. It refuses a key that is there with 7, then a directory that is full with 8, and a
    /// refusal changes nothing.
    pub fn add(&mut self, item: R) -> Result<(), Refusal>
        ensures answer { result
            ≡ add_answer nat_eq R.keyed (places self.old) (contents self.old) item }
        ensures list { contents self.new
            ≡ add_list nat_eq R.keyed (places self.old) (contents self.old) item }
        ensures size { places self.new ≡ places self.old }
        ensures whole { self.new ≡ added R.keyed self.old item }
    {
        self.may_add(&item)?;
        self.store(item);
        Ok(())
    }

    // The answer to adding a record.
    fn may_add(&self, item: &R) -> Result<(), Refusal>
        ensures { result
            ≡ add_answer nat_eq R.keyed (places self.now) (contents self.now) item.now }
    {
        if self.contains(item.key()) {
            return Err(Refusal::Twice);
        }
        if self.used().len() >= self.records.len() {
            return Err(Refusal::Full);
        }
        Ok(())
    }

    // Puts a record in the first free place.
    fn store(&mut self, item: R)
        requires { self.old.count < places self.old }
        ensures { self.new ≡ stored self.old item }
    {
        put_in(self.records, self.count, item);
        self.count += 1;
    }
}

// Puts a record in a place; what was there goes.
fn put_in<R: Drop>(places: &mut [R], at: usize, item: R)
    requires { at < length places.old }
    ensures { places.new ≡ slice_set places.old at item }
{
    places[at] = item;
}

// Takes the record at a place out of the first ones, and moves those behind it one place down; a blank one goes where
// the last one was.
fn take_out<R: Drop>(places: &mut [R], at: usize, count: usize, blank: R)
    requires before { at < count }
    requires within { count ≤ length places.old }
    ensures { places.new ≡ remove (take count places.old) at ++ blank ∷ drop count places.old }
{
    let used = &mut places[..count];
    used[at] = blank;
    used[at..].rotate_left(1);
}

impl<'a, R: Keyed + Blank + Drop> Directory<'a, R> {
    /// Removes the first record with the key, and frees its place. It refuses a key that no record has with 6, and then
    /// nothing changes.
    pub fn remove(&mut self, key: u64) -> Result<(), Refusal>
        ensures answer { result ≡ remove_answer nat_eq R.keyed (contents self.old) key }
        ensures list { contents self.new ≡ remove_list nat_eq R.keyed (contents self.old) key }
        ensures size { places self.new ≡ places self.old }
        ensures whole { self.new ≡ taken_out R.keyed R.blanked self.old key }
    {
        let place = self.find(key).ok_or(Refusal::Stray)?;
        self.vacate(place);
        Ok(())
    }

    // Takes the record at a place out, and frees the place.
    fn vacate(&mut self, place: usize)
        requires { place < length (contents self.old) }
        ensures { self.new ≡ vacated R.blanked self.old place }
    {
        let count = self.used().len();
        take_out(self.records, place, count, R::blank());
        self.count = count - 1;
    }
}
