// The rules on the headers of tablets: roots share out all hashes, and two children share out their parent's range.
ghost use Rattle.std.specs.Prelude.{◌≡◌, slice_get};
ghost use Rattle.std.specs.List.{list_any};
ghost use Rattle.xc_record.specs.Headers.{is_child_of, splits_off, child_fits, fits, next_after, may_end, headers_fit};
ghost use Rattle.xc_record.specs.Headers.{are_headers, children};
ghost use Rattle.xc_record.specs.Valid.{headers_of};

use crate::record::{Header, Tablet};
use xc_base::MOST_TABLETS;

/// What header may stand next after those before.
#[derive(Clone, Copy, PartialEq, Eq, Debug)]
pub enum Next {
    /// A root that begins at this hash, or at 65536 a left child.
    RootAt(u32),
    /// The left child of a tablet that has none.
    LeftChild,
    /// The right child of this tablet, with this range.
    RightChild { parent: u32, lo: u32, hi: u32 },
}

impl Next {
    /// Whether the header may stand next after those of the tablets before.
    pub fn fits(&self, before: &[Tablet], h: &Header) -> bool
        ensures { result ≡ fits (headers_of before.now) self.now h.now }
    {
        if h.id as usize != before.len() || h.lo > h.hi {
            return false;
        }
        match h.parent {
            None => match self {
                Next::RootAt(lo) => u32::from(h.lo) == *lo,
                Next::LeftChild | Next::RightChild { .. } => false,
            },
            Some(id) => child_fits(before, id, *self, h),
        }
    }

    /// What may stand after the header, which stands after those of the tablets before.
    pub fn after(&self, before: &[Tablet], h: &Header) -> Next
        ensures { result ≡ next_after (headers_of before.now) self.now h.now h.now.parent }
    {
        match h.parent {
            None => Next::RootAt(u32::from(h.hi) + 1),
            Some(id) => match self {
                Next::RightChild { .. } => Next::LeftChild,
                Next::RootAt(_) | Next::LeftChild => Next::RightChild {
                    parent: id,
                    lo: u32::from(h.hi) + 1,
                    hi: match header_at(before, id) {
                        Some(parent) => u32::from(parent.hi),
                        None => 0,
                    },
                },
            },
        }
    }

    /// Whether the headers may end here: the roots reach 65535, and each left child has its right one.
    pub fn may_end(&self) -> bool
        ensures { result ≡ may_end self.now }
    {
        match self {
            Next::RootAt(lo) => *lo == 65_536,
            Next::LeftChild => true,
            Next::RightChild { .. } => false,
        }
    }
}

fn is_child(header: &Header, id: u32) -> bool
    ensures { result ≡ is_child_of id header.now }
{
    match header.parent {
        Some(parent) => parent == id,
        None => false,
    }
}

fn has_child(tablets: &[Tablet], id: u32) -> bool
    ensures { result ≡ list_any (λ t. is_child_of id t.header) tablets.now }
{
    tablets.iter().any(|t| is_child(&t.header, id))
}

// The header of a tablet, if there is one of this number.
#[tactic(auto, using(crate::proofs::HeaderLists::get_of_headers))]
fn header_at(tablets: &[Tablet], id: u32) -> Option<Header>
    ensures { result ≡ slice_get (headers_of tablets.now) id }
{
    match tablets.get(id as usize) {
        Some(t) => Some(t.header),
        None => None,
    }
}

// Whether the header is the left child of a tablet that has no child yet.
#[tactic(auto, using(crate::proofs::HeaderLists::any_of_headers))]
fn is_left_child(before: &[Tablet], id: u32, h: &Header) -> bool
    ensures { result ≡ splits_off (headers_of before.now) id h.now }
{
    if has_child(before, id) {
        return false;
    }
    match header_at(before, id) {
        Some(parent) => h.lo == parent.lo && h.hi < parent.hi,
        None => false,
    }
}

fn child_fits(before: &[Tablet], id: u32, next: Next, h: &Header) -> bool
    ensures { result ≡ child_fits (headers_of before.now) id next h.now }
{
    match next {
        Next::RootAt(lo) => lo == 65_536 && is_left_child(before, id, h),
        Next::LeftChild => is_left_child(before, id, h),
        Next::RightChild { parent, lo, hi } => id == parent
            && u32::from(h.lo) == lo
            && u32::from(h.hi) == hi,
    }
}

// Whether the rules on headers hold.
#[tactic(auto, unfolding(crate::specs::Headers::headers_fit))]
fn headers_fit(tablets: &[Tablet]) -> bool
    ensures { result ≡ headers_fit (headers_of tablets.now) }
{
    let mut next = Next::RootAt(0);
    for (i, t) in tablets.iter().enumerate() {
        if !next.fits(&tablets[..i], &t.header) {
            return false;
        }
        next = next.after(&tablets[..i], &t.header);
    }
    next.may_end()
}

// Whether they are at most `MOST_TABLETS`, and the rules on headers hold. These look at each pair of tablets, so the
// number comes first.
#[tactic(auto, unfolding(crate::specs::Headers::are_headers))]
pub(crate) fn are_headers(tablets: &[Tablet]) -> bool
    ensures { result ≡ are_headers (headers_of tablets.now) }
{
    tablets.len() <= MOST_TABLETS && headers_fit(tablets)
}

/// The headers of the left and the right child of the tablet of this number. None where it has none.
pub fn children(tablets: &[Tablet], id: u32) -> Option<(Header, Header)>
    ensures { result ≡ children (headers_of tablets.now) id }
{
    for (i, t) in tablets.iter().enumerate() {
        if is_child(&t.header, id) {
            return match tablets.get(i + 1) {
                Some(right) => Some((t.header, right.header)),
                None => None,
            };
        }
    }
    None
}
