// How a list of fields is filled byte by byte, and read.
ghost use Rattle.std.specs.Prelude.{◌≡◌, ◌+◌, ◌<◌, ◌≤◌, [], ◌∷◌, ◌++◌, length, Some, nat_le};
ghost use Rattle.std.specs.List.{slice_get, between};
ghost use Rattle.std.specs.Option.{option_map};
ghost use Rattle.arrayvec.specs.ArrayVec.{array_vec_len};
ghost use Rattle.records.specs.Laid.{start_of};
ghost use Rattle.records.specs.FieldLists.{complete, current, fields_of, is_empty};

use crate::field_list::FieldList;
use arrayvec::ArrayVec;

impl FieldList {
    /// One empty field.
    pub(crate) fn new() -> FieldList
        ensures fields { (complete result ≡ []) × (current result ≡ []) }
        ensures room { (result.bytes.items ≡ []) × (result.ends.items ≡ []) }
    {
        FieldList {
            bytes: ArrayVec::new(),
            ends: ArrayVec::new(),
        }
    }

    /// Back to one empty field.
    // No plainer as `*self = FieldList::new()`, which makes and moves a whole kilobyte where only the bytes that were kept are cleared.
    pub(crate) fn clear(&mut self)
        ensures fields { (complete self.new ≡ []) × (current self.new ≡ []) }
        ensures room { (self.new.bytes.items ≡ []) × (self.new.ends.items ≡ []) }
    {
        self.ends.clear();
        self.bytes.clear();
    }

    /// One byte more in the last field.
    #[tactic(auto, using(crate::proofs::Laid::first_fields_add))]
    pub(crate) fn add(&mut self, byte: u8)
        requires { array_vec_len self.old.bytes < 1024 }
        ensures before { complete self.new ≡ complete self.old }
        ensures last { current self.new ≡ current self.old ++ (byte ∷ []) }
        ensures room { (array_vec_len self.new.bytes ≡ array_vec_len self.old.bytes + 1) × (self.new.ends ≡ self.old.ends) }
    {
        self.bytes.push(byte);
    }

    /// Completes the last field, and starts an empty one after it.
    #[tactic(auto, using(crate::proofs::Laid::first_fields_separate, crate::proofs::Laid::ordered_separate, crate::proofs::Laid::inside_separate))]
    pub(crate) fn separate(&mut self)
        requires { array_vec_len self.old.ends < 39 }
        ensures before { complete self.new ≡ complete self.old ++ (current self.old ∷ []) }
        ensures last { current self.new ≡ [] }
        ensures room { (self.new.bytes ≡ self.old.bytes) × (array_vec_len self.new.ends ≡ array_vec_len self.old.ends + 1) }
    {
        self.ends.push(self.bytes.len() as u16);
    }

    /// Where the field at `k` starts.
    fn start(&self, k: usize) -> usize
        requires { k ≤ array_vec_len self.now.ends }
        ensures { result ≡ start_of self.now.ends.items k }
    {
        if k == 0 { 0 } else { self.ends[k - 1] as usize }
    }

    /// Where the field at `k` ends.
    #[tactic(auto, using(crate::proofs::Laid::nth_last, crate::proofs::Laid::nth_complete, std::proofs::lemmas::Slice::between_to_end))]
    fn end(&self, k: usize) -> usize
        requires { k ≤ array_vec_len self.now.ends }
        ensures within { (start_of self.now.ends.items k ≤ result) × (result ≤ array_vec_len self.now.bytes) }
        ensures field { slice_get (fields_of self.now) k ≡ Some (between (start_of self.now.ends.items k) result self.now.bytes.items) }
    {
        if k == self.ends.len() {
            self.bytes.len()
        } else {
            self.ends[k] as usize
        }
    }

    /// Whether the last field has no byte yet.
    pub(crate) fn is_fresh(&self) -> bool
        ensures { result ≡ is_empty (current self.now) }
    {
        self.bytes.len() == self.start(self.ends.len())
    }

    /// Whether there is no room for a field more.
    pub(crate) fn is_full(&self) -> bool
        ensures { result ≡ nat_le 39 (array_vec_len self.now.ends) }
    {
        self.ends.is_full()
    }

    /// The place of the last field, counted from 0.
    fn last(&self) -> usize
        ensures few { result ≤ 39 }
        ensures place { length (fields_of self.now) ≡ result + 1 }
    {
        self.ends.len()
    }

    /// How many fields there are.
    pub fn count(&self) -> usize
        ensures { result ≡ length (fields_of self.now) }
    {
        self.last() + 1
    }

    /// The field at a place, counted from 0, if there is one.
    #[tactic(auto, using(crate::proofs::Laid::nth_beyond))]
    pub fn field(&self, place: usize) -> Option<&[u8]>
        ensures { option_map (λ x. x.now) result ≡ slice_get (fields_of self.now) place }
    {
        if place > self.ends.len() {
            return None;
        }
        let from = self.start(place);
        let to = self.end(place);
        Some(&self.bytes[from..to])
    }
}
