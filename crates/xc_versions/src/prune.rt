// What a prune takes from a page, from its last version to its first.
ghost use Rattle.std.specs.Prelude.{◌≡◌, ℕ, List, ◌++◌, ◌<◌, ◌≤◌, length, slice_get, slice_index_or, option_map};
ghost use Rattle.std.specs.Prelude.{IfSome};
ghost use Rattle.std.specs.Option.{option_to_list};
ghost use Rattle.xc_versions.specs.Stored.{next_commit, pruned_before};
ghost use Rattle.std.specs.List.{AllByRecursion};
ghost use Rattle.xc_versions.specs.Slots.{seen};
ghost use Rattle.xc_versions.specs.Heads.{IsSlot};
ghost use Rattle.xc_versions.specs.Pages.{held, slots_of, first_of, capacity_of, IdleNext};
ghost use Rattle.xc_versions.specs.declared.stored.StoredVersion.{StoredVersion};

use crate::page::{Page, first_or};
use crate::queue::remove_at;
use crate::stored::Slot;
use xc_arena::op_bytes;

// The commit of the next version, where it is of the same key.
#[inline]
fn next_commit(bytes: &[u8], version: &Slot, next: &Option<Slot>) -> Option<u64>
    requires version { IsSlot bytes.now version.now }
    requires next { IfSome next.now (λ slot. IsSlot bytes.now slot) }
    ensures { result
        ≡ next_commit (seen bytes.now version.now) (option_to_list (option_map (seen bytes.now) next.now)) }
{
    match next {
        Some(next) => {
            if version.is_of_key(bytes, next) {
                Some(next.commit)
            } else {
                None
            }
        }
        None => None,
    }
}

impl Page {
    /// Removes what its next version replaces at the cutoff, and notes when more is due. Behind the page stands `next`,
    /// or nothing. It gives the number of bytes that no slot of the page names any more.
    pub(crate) fn prune(&mut self, bytes: &[u8], next: Option<Slot>, cutoff: u64) -> usize
        requires slots { AllByRecursion (IsSlot bytes.now) (slots_of self.old) }
        requires next { IfSome next (λ slot. IsSlot bytes.now slot) }
        ensures items { (rest : List StoredVersion) → slice_get rest 0 ≡ option_map (seen bytes.now) next
            → held bytes.now self.new ++ rest ≡ pruned_before cutoff (held bytes.now self.old) rest }
        ensures idle { (u : ℕ) (rest : List StoredVersion) → slice_get rest 0 ≡ option_map (seen bytes.now) next
            → u < self.new.due → IdleNext u (held bytes.now self.new) rest }
        ensures slots { AllByRecursion (IsSlot bytes.now) (slots_of self.new) }
        ensures first { first_of self.new ≡ slice_index_or (slots_of self.new) 0 (first_of self.new) }
        ensures len { length (slots_of self.new) ≤ length (slots_of self.old) }
        ensures capacity { capacity_of self.new ≡ capacity_of self.old }
    {
        let body = &mut *self.body;
        let mut behind = next;
        let mut due = u64::MAX;
        let mut dead: usize = 0;
        let mut i = body.items.len();
        while i > 0 {
            i -= 1;
            let version = body.items[i];
            match next_commit(bytes, &version, &behind) {
                Some(commit) if commit <= cutoff => {
                    dead = dead.saturating_add(op_bytes(bytes, version.at).len());
                    remove_at(&mut body.items, i);
                }
                Some(commit) => {
                    due = due.min(commit);
                    behind = Some(version);
                }
                None => behind = Some(version),
            }
        }
        body.first = first_or(&body.items, body.first);
        self.due = due;
        dead
    }
}
