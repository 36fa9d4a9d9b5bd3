ghost use Rattle.std.specs.Prelude.{◌≡◌, ◌<◌, ℕ, List, true, false, is_some, IfOk, slice_index, slice_index_or};
ghost use Rattle.std.specs.Prelude.{slice_set, map, filter, min, if◌then◌else◌, ◌&&◌, not};
ghost use Rattle.xc_record.specs.declared.record.Logs.{Logs};
ghost use Rattle.xc_record.specs.Headers.{are_headers, children, is_child_of};
ghost use Rattle.xc_record.specs.Lists.{least};
ghost use Rattle.xc_record.specs.SafeTime.{IsPlaces, safe_time};
ghost use Rattle.xc_record.specs.Valid.{is_valid};
ghost use Rattle.xc_model.specs.Floors.{Floors, FloorsFor, has_closed, has_started, starts, counts, least_kept};
ghost use Rattle.xc_model.specs.Floors.{new_floors, raised, split_at};

use std::alloc::{AllocError, Global};
use std::marker::Model;
use xc_record::Header;

/// Of each source tablet its last safe value, and whether its split was applied. Contracts see the headers, and these
/// by the tablets' numbers.
#[derive(Drop, Debug)]
pub struct Floor {
    headers: Vec<Header>,
    closed: Vec<bool>,
    safe: Vec<u64>,
}

impl Model for Floor {
    ghost use Rattle.xc_model.specs.Floors.{Floors};

    ghost Value = { Floors };

    ghost view = { λ f. record { headers = f.headers.items; closed = f.closed.items; safe = f.safe.items } };
}

// Whether the tablet is closed.
#[inline]
fn is_closed(closed: &[bool], id: u32) -> bool
    ensures { result ≡ slice_index_or closed.now id false }
{
    closed.get(id as usize).copied().unwrap_or(false)
}

// The tablet's last safe value.
#[inline]
fn safe_at(safe: &[u64], id: u32) -> u64
    ensures { result ≡ slice_index safe.now id }
{
    safe.get(id as usize).copied().unwrap_or(0)
}

// Gives the tablet this safe value.
fn set_safe(safe: &mut Vec<u64>, id: u32, value: u64)
    ensures { safe.new.items ≡ slice_set safe.old.items id value }
{
    let id = id as usize;
    if id < safe.len() {
        safe[id] = value;
    }
}

// Notes that the tablet is closed.
fn set_closed(closed: &mut Vec<bool>, id: u32)
    ensures { closed.new.items ≡ slice_set closed.old.items id true }
{
    let id = id as usize;
    if id < closed.len() {
        closed[id] = true;
    }
}

/// The two children of a tablet by these headers, the left one first, or None where it has none.
pub fn children(headers: &[Header], id: u32) -> Option<(Header, Header)>
    ensures { result ≡ children headers.now id }
{
    for (i, header) in headers.iter().enumerate() {
        if header.parent == Some(id) {
            return match headers.get(i + 1) {
                Some(right) => Some((*header, *right)),
                None => None,
            };
        }
    }
    None
}

impl Floor {
    /// Nothing was applied yet: each value is 0, and no tablet is closed. The headers are valid, so there are at most
    /// 64.
    pub fn new(alloc: Global, headers: &[Header]) -> Result<Floor, AllocError>
        requires { are_headers headers.now ≡ true }
        ensures { IfOk result (λ f. f ≡ new_floors headers.now) }
    {
        let n = headers.len();
        Ok(Floor {
            headers: Vec::from_slice(alloc, headers)?,
            closed: vec![in alloc; false; n]?,
            safe: vec![in alloc; 0; n]?,
        })
    }

    /// A safe record of the tablet was applied, with value `t`: the tablet's value becomes the greater of both.
    pub fn raise(&mut self, id: u32, t: u64)
        requires open { has_closed self.old id ≡ false }
        requires started { has_started self.old id ≡ true }
        ensures { self.new ≡ raised id t self.old }
    {
        let value = safe_at(&self.safe, id);
        set_safe(&mut self.safe, id, value.max(t));
    }

    /// The split of the tablet was applied: it is closed from now on, and its two children begin with its value.
    pub fn split(&mut self, id: u32)
        requires open { has_closed self.old id ≡ false }
        requires started { has_started self.old id ≡ true }
        requires parent { is_some (children self.old.headers id) ≡ true }
        ensures { self.new ≡ split_at id self.old }
    {
        if let Some((left, right)) = children(&self.headers, id) {
            let value = safe_at(&self.safe, id);
            set_closed(&mut self.closed, id);
            set_safe(&mut self.safe, left.id, value);
            set_safe(&mut self.safe, right.id, value);
        }
    }

    /// The headers of the source tablets.
    pub fn headers(&self) -> &[Header]
        ensures { result.now ≡ self.now.headers }
    {
        self.headers.as_slice()
    }

    /// Whether the tablet's split was applied.
    pub fn is_closed(&self, id: u32) -> bool
        ensures { result ≡ has_closed self.now id }
    {
        is_closed(&self.closed, id)
    }

    /// Whether the tablet is a root, or the split of its parent was applied.
    pub fn has_started(&self, id: u32) -> bool
        ensures { result ≡ has_started self.now id }
    {
        match self.headers.get(id as usize) {
            Some(header) => self.starts(header),
            None => false,
        }
    }

    /// Whether the tablet has children.
    pub fn has_children(&self, id: u32) -> bool
        ensures { result ≡ is_some (children self.now.headers id) }
    {
        children(&self.headers, id).is_some()
    }

    // Whether the tablet of this header has started.
    fn starts(&self, header: &Header) -> bool
        ensures { result ≡ starts self.now header.now }
    {
        match header.parent {
            None => true,
            Some(parent) => is_closed(&self.closed, parent),
        }
    }

    // Whether the tablet of this header counts: it has started, and isn't closed.
    fn counts(&self, header: &Header) -> bool
        ensures { result ≡ counts self.now header.now }
    {
        !is_closed(&self.closed, header.id) && self.starts(header)
    }

    /// The least value of the tablets that have started and aren't closed; 2^62, above all times, where there is none.
    /// It is the safe time of all logs and places for which the values are right. It looks at up to 64 numbers.
    pub fn least(&self) -> u64
        ensures value { result ≡ least_kept self.now }
        ensures safe { (logs : Logs) (places : List ℕ) → is_valid logs ≡ true → IsPlaces logs places
            → FloorsFor logs places self.now → result ≡ safe_time logs places }
    {
        let mut least: u64 = 1 << 62;
        for header in &self.headers {
            if self.counts(header) {
                least = least.min(safe_at(&self.safe, header.id));
            }
        }
        least
    }
}
